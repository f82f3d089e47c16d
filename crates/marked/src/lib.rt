// 01's marked cases, proved together as one table. Definitions and one computed proof; no code.
#![tactic(auto)]
