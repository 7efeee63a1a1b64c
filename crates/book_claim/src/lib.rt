// No code: demand 3, the theorem about open entries, in specs/ and proofs/.
#![tactic(auto)]
