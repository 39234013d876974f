// What the layout derives from n slots and k overflow entries: counts, lengths (docs/FORMAT.md, "Derived counts"); a
// summary of its parts; the primary byte of a distance; the test of an overflow entry; refusals as answers.
#![tactic(auto)]

pub mod entries;
pub mod refusals;

ghost use Rattle.std.specs.Prelude.{◌≡◌, ◌≤◌};
ghost use Rattle.pciv_format.specs.Layout.{max_slots, counts_of, summarize, primary_byte, index_step, index_len, file_len};
ghost use Rattle.pciv_format.specs.Mask.{mask_len};

use pciv_format::{Counts, HEADER_LEN, SENTINEL, Summary, UNINDEXED_MAX};

// The counts of a file with n slots and k overflow entries.
#[tactic(auto, unfolding(pciv_format::specs::Layout::counts_of))]
pub fn counts_of(n: usize, k: usize) -> Counts
    requires { (n ≤ max_slots) × (k ≤ n) }
    ensures { result ≡ counts_of n k }
{
    Counts {
        n,
        k,
        m: index_len(k),
        step: index_step(k),
        len: file_len(n, k),
    }
}

// The summary with these counts and the sum of all distances.
pub fn summarized(counts: Counts, sum: usize) -> Summary
    ensures { result ≡ summarize counts sum }
{
    Summary {
        n: counts.n,
        k: counts.k,
        m: counts.m,
        step: counts.step,
        len: counts.len,
        sum,
    }
}

// The primary byte of a distance.
pub fn primary_byte(x: u32) -> u8
    ensures { result ≡ primary_byte x }
{
    if x < SENTINEL as u32 {
        x as u8
    } else {
        SENTINEL
    }
}

// The step of the sparse index; 0 for no index.
#[tactic(auto, unfolding(pciv_format::specs::Layout::index_step))]
pub fn index_step(k: usize) -> usize
    requires { k ≤ max_slots }
    ensures { result ≡ index_step k }
{
    if k <= UNINDEXED_MAX {
        return 0;
    }
    k.div_ceil(UNINDEXED_MAX)
}

// How many entries the sparse index has.
#[tactic(auto, using(crate::proofs::CeilLaws::ceil_div_is), unfolding(pciv_format::specs::Layout::index_len))]
pub fn index_len(k: usize) -> usize
    requires { k ≤ max_slots }
    ensures { result ≡ index_len k }
{
    let step = index_step(k);
    if step == 0 {
        return 0;
    }
    k.div_ceil(step)
}

// The length of the file in bytes.
pub fn file_len(n: usize, k: usize) -> usize
    requires { (n ≤ max_slots) × (k ≤ max_slots) }
    ensures { result ≡ file_len n k }
{
    HEADER_LEN + n + 12 * k + 16 * index_len(k)
}

// How many words a mask of n slots has.
pub fn mask_len(n: usize) -> usize
    requires { n ≤ max_slots }
    ensures { result ≡ mask_len n }
{
    n.div_ceil(64)
}
