// No code: theorems about the program's definition, in specs/ and proofs/.
#![tactic(auto)]
