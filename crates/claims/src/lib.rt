// No code: theorems about the definitions of steps and runs, in specs/ and proofs/.
#![tactic(auto)]
