// No code: the book of open entries, and examples of it, in specs/ and proofs/.
#![tactic(auto)]
