// The one constant table of all rows with their conditions, packed; where the rows of each class stand in it, and which
// it checks; the text rules in numbers.
// Dense matches, which the compiler turns into tables in read-only memory: a constant array would be built on the stack
// at each call.
#![tactic(auto)]

pub mod checks;
pub mod places;
pub mod rows;
pub mod rules;
