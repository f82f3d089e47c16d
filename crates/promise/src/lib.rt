// What it is for a promise to decide its answer, and the laws of computed tests that every proof above cites. No code.
#![tactic(auto)]
