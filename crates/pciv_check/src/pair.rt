// The check of two files that are to be combined (docs/FORMAT.md, "Arithmetic").
ghost use Rattle.std.specs.Prelude.{◌≡◌};
ghost use Rattle.pciv_check.specs.Pair.{pair_counts};

use crate::check_counts;
use pciv_format::{Refusal, RefusalKind};
use pciv_layout::refusals::refuse;

// The counts of two maps: the slots of both, and the overflow entries of the first and of the second.
#[derive(Clone, Copy)]
pub struct PairCounts {
    pub n: usize,
    pub ka: usize,
    pub kb: usize,
}

// The counts of two files with equally many slots. Refusals: 1 to 8 of the first with map 1, 1 to 8 of the second with
// map 2, then 10.
#[tactic(auto, unfolding(crate::specs::Pair::pair_counts))]
pub fn check_pair(a: &[u8], b: &[u8]) -> Result<PairCounts, Refusal>
    ensures answer { result ≡ pair_counts a.now b.now }
{
    let first = check_counts(a, 1)?;
    let second = check_counts(b, 2)?;
    if first.n != second.n {
        return refuse(RefusalKind::SizeMismatch, 0, 0);
    }
    Ok(PairCounts {
        n: first.n,
        ka: first.k,
        kb: second.k,
    })
}
