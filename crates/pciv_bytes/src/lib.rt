// Bytes and lists: little-endian numbers, copies, moves, a search, the smaller of two numbers. Nothing of PCIV.
#![tactic(auto)]

pub mod copies;
pub mod find;
pub mod little_endian;
pub mod moves;
pub mod numbers;
