// No code: theorems about the definitions of images, in specs/ and proofs/.
#![tactic(auto)]
