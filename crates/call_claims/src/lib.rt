// No code: what holds of every machine that calls of run come to, in specs/ and proofs/.
#![tactic(auto)]
