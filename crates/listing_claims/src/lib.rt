// Claims about the listing, in specs/ and proofs/; there is no code here.
#![tactic(auto)]
