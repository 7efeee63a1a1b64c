// No code: theorems about the exported calls, in specs/ and proofs/.
#![tactic(auto)]
