// Routines on a map whose file was checked: they ask for `CheckedMap`, for the primary array alone, or that an entry
// lies within the file. A slot's distance is found in pciv_map_lookup.
#![tactic(auto)]

pub mod cursor;
pub mod entries;
pub mod scan;
pub mod totals;
