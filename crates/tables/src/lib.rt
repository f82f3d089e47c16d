// 01's tables of rows, in specs/. No code.
#![tactic(auto)]
