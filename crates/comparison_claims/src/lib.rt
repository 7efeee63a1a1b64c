// No code: theorems about comparing images, in specs/ and proofs/.
#![tactic(auto)]
