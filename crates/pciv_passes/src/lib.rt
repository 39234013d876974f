// Passes over all bytes of one list or two: counts and sums, an operation on every two bytes, what the smaller and the
// larger of every two add up to. The compiler makes loops of them that take many bytes at once (tests/kernels).
#![tactic(auto)]

pub mod counts;
pub mod extremes;
pub mod pairs;
