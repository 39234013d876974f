// A mask as bytes 0 and 1, one for each slot (docs/FORMAT.md, "Masks"), eight bits at once through a table.
#![tactic(auto)]

pub mod bits;
pub mod rows;
