// What the smaller and the larger distances of two checked maps weigh, over all slots: a distance weighs itself, or
// 1 where it is t or more. The primary bytes are weighed in one pass, and where a distance in overflow weighs more than
// its byte, the overflow entries tell how much: those of the first map lead to the slots that are in overflow in both,
// and so to the smaller distances; the larger ones weigh what is left of the entries of both maps.
ghost use Rattle.std.specs.Prelude.{◌≡◌, ℕ};
ghost use Rattle.pciv_bytes.specs.Ranges.{sum_from};
ghost use Rattle.pciv_passes.specs.Counts.{term_of};
ghost use Rattle.pciv_format.specs.Parts.{value_of};
ghost use Rattle.pciv_format.specs.Check.{file_parts, CheckedMap};
ghost use Rattle.pciv_check.specs.Pair.{CheckedPair};
ghost use Rattle.pciv_compare.specs.Weigh.{weight_of, beyond_of, Late, shared_at, Weighed};

use pciv_arith_merge::led::combine_entry;
use pciv_format::{HEADER_LEN, SlotOp};
use pciv_map::entries::entry_distance;
use pciv_passes::counts::{Term, Test};
use pciv_passes::extremes::{Extremes, add_extremes};

// What a distance weighs: itself, or 1 where it is the given one or more.
#[derive(Clone, Copy)]
pub enum Weight {
    Distance,
    From(u32),
}

// What the primary bytes weigh.
fn weigh_bytes(of: Term, a: &[u8], b: &[u8], n: usize, ka: usize, kb: usize) -> Extremes
    requires { CheckedPair a.now b.now n ka kb }
    ensures { Weighed (term_of of) (file_parts a.now n ka).byte
        (file_parts b.now n kb).byte n result }
{
    let end = HEADER_LEN + n;
    add_extremes(of, &a[HEADER_LEN..end], &b[HEADER_LEN..end])
}

// What a distance in overflow weighs more than the byte 255.
fn beyond(of: Weight, x: u32) -> usize
    ensures { result ≡ beyond_of of x }
{
    match of {
        Weight::Distance => x.saturating_sub(255) as usize,
        Weight::From(t) => (t <= x) as usize,
    }
}

// The same of all overflow entries of a map.
fn weigh_entries(of: Weight, file: &[u8], n: usize, k: usize) -> usize
    requires { CheckedMap file.now n k }
    ensures { result ≡ sum_from (λ (j : ℕ). beyond_of of ((file_parts file.now n k).distance j)) 0 k }
{
    let mut sum: usize = 0;
    for j in 0..k {
        sum += beyond(of, entry_distance(file, n, j));
    }
    sum
}

// The same of the smaller distance at the slot of every overflow entry of the first map.
fn weigh_shared(of: Weight, a: &[u8], b: &[u8], n: usize, ka: usize, kb: usize) -> usize
    requires { CheckedPair a.now b.now n ka kb }
    ensures { result ≡ sum_from (λ (j : ℕ). beyond_of of
        (shared_at (file_parts a.now n ka) (file_parts b.now n kb) j)) 0 ka }
{
    let mut sum: usize = 0;
    let mut t: usize = 0;
    for j in 0..ka {
        let found = combine_entry(SlotOp::Minimum, a, b, n, ka, kb, j, t);
        sum += beyond(of, found.distance);
        t = found.next;
    }
    sum
}

// What the distances weigh more than their primary bytes, where inline ones do not.
fn weigh_overflow(of: Weight, a: &[u8], b: &[u8], n: usize, ka: usize, kb: usize) -> Extremes
    requires checked_pair { CheckedPair a.now b.now n ka kb }
    requires late { Late of }
    ensures { Weighed (beyond_of of) (value_of (file_parts a.now n ka))
        (value_of (file_parts b.now n kb)) n result }
{
    let shared = weigh_shared(of, a, b, n, ka, kb);
    let first = weigh_entries(of, a, n, ka);
    let second = weigh_entries(of, b, n, kb);
    Extremes {
        least: shared,
        most: first + second - shared,
    }
}

// What the distances weigh. A threshold up to 255 is met by a primary byte where it is met by the distance.
pub(crate) fn weigh(of: Weight, a: &[u8], b: &[u8], n: usize, ka: usize, kb: usize) -> Extremes
    requires { CheckedPair a.now b.now n ka kb }
    ensures { Weighed (weight_of of) (value_of (file_parts a.now n ka))
        (value_of (file_parts b.now n kb)) n result }
{
    match of {
        Weight::Distance => {
            let bytes = weigh_bytes(Term::Byte, a, b, n, ka, kb);
            let overflow = weigh_overflow(Weight::Distance, a, b, n, ka, kb);
            Extremes {
                least: bytes.least + overflow.least,
                most: bytes.most + overflow.most,
            }
        }
        Weight::From(t) => {
            if t <= 255 {
                return weigh_bytes(Term::Passing(Test::AtLeast(t as u8)), a, b, n, ka, kb);
            }
            weigh_overflow(Weight::From(t), a, b, n, ka, kb)
        }
    }
}
