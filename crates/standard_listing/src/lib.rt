// That the standard sheet has the texts of every record and no others, and that a listing with it is 01's (#112). Definitions and proofs; no code.
#![tactic(auto)]
