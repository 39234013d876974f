// Bits of mask words (docs/FORMAT.md, "Masks"): the check of a mask, and its set bits; mask words from bytes. Their laws
// are in pciv_format, proofs/BitLaws.antt and MaskLaws.antt.
#![tactic(auto)]

pub mod flags;
mod gather;
pub mod masks;
mod transpose;
