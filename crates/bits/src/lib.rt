// Bits: fields of any width up to 64 bits at any bit position of a row of bytes, and tables of them.
// Another layer of the planner calls these; what it must show first stands in each `requires`.
#![tactic(auto)]

pub mod field;
pub mod table;
