// Two checked maps combined into the file of a third, slot by slot (docs/FORMAT.md, "Arithmetic"). Each routine
// asks for `CheckedPair`. The primary bytes are combined first; then come the overflow entries, from the entries
// of the two maps alone.
#![tactic(auto)]

pub mod both;
pub mod combine;
pub mod joint;
pub mod led;
pub mod primary;
pub mod slots;
