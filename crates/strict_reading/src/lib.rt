// What a strict reading is (#110), and that strict accepts a value exactly when it has one. Definitions and theorems; no code.
#![tactic(auto)]
