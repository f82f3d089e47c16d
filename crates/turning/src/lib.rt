// One field turned, one record changed (#114): what a named field is, and that turning any other changes no other record. Definitions and theorems; no code.
#![tactic(auto)]
