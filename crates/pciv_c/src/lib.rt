// The C interface (include/pciv.h), its functions in the header's sections and order: a thin one for each routine that
// C has, and one for each comparison of threshold. How an answer is told is in pciv_c_cells.
#![tactic(auto)]

pub mod arithmetic;
pub mod bundles;
pub mod check;
pub mod disparity;
pub mod distances;
pub mod editing;
pub mod figures;
pub mod masks;
pub mod repair;
pub mod report;
pub mod totals;
pub mod writing;
