// No code: theorems about runs of differing bytes, in specs/ and proofs/.
#![tactic(auto)]
