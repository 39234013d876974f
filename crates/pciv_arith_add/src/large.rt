// Refusal 11: the least slot where the result is above what a file can hold. Only where one of the two is in
// overflow can it be, so a walk over the overflow entries of both finds it.
ghost use Rattle.std.specs.Prelude.{◌≡◌, min};
ghost use Rattle.pciv_bytes.specs.Ranges.{first_below};
ghost use Rattle.pciv_format.specs.Parts.{value_of};
ghost use Rattle.pciv_format.specs.Check.{file_parts, CheckedMap};
ghost use Rattle.pciv_check.specs.Pair.{CheckedPair};
ghost use Rattle.pciv_build.specs.Build.{NoneAbove};
ghost use Rattle.pciv_map.specs.Cursor.{next_slot};
ghost use Rattle.pciv_arith_add.specs.Addition.{addend_at, Small, next_of, too_large};

use crate::addend::{Addend, addend_slot, take_addend};
use pciv_format::{MAX_DISTANCE, SENTINEL};
use pciv_map::cursor::{next_slot, take_at};
use pciv_map::entries::entry_distance;

// The next slot with an overflow entry in either map, or n.
fn either_slot(
    of: Addend,
    a: &[u8],
    b: &[u8],
    n: usize,
    ka: usize,
    kb: usize,
    j: usize,
    t: usize,
) -> usize
    requires { CheckedPair a.now b.now n ka kb }
    ensures { result ≡ min (next_slot (file_parts a.now n ka) j) (next_of of (file_parts b.now n kb) t) }
{
    next_slot(a, n, ka, j).min(addend_slot(of, b, n, kb, t))
}

// The least slot where the result is too large, or n, by a walk.
fn walk_large(of: Addend, a: &[u8], b: &[u8], n: usize, ka: usize, kb: usize) -> usize
    requires checked_pair { CheckedPair a.now b.now n ka kb }
    requires small { Small of }
    ensures { result ≡ first_below (too_large of (file_parts a.now n ka) (file_parts b.now n kb)) n }
{
    let mut j = 0;
    let mut t = 0;
    let mut slot = either_slot(of, a, b, n, ka, kb, j, t);
    while slot < n {
        let x = take_at(a, n, ka, j, slot);
        let y = take_addend(of, b, n, kb, t, slot);
        if MAX_DISTANCE - x.distance < y.distance {
            return slot;
        }
        j = x.next;
        t = y.next;
        slot = either_slot(of, a, b, n, ka, kb, j, t);
    }
    n
}

// A distance that none of the map is above: the largest in overflow, or 255.
fn most_in(file: &[u8], n: usize, k: usize) -> u32
    requires { CheckedMap file.now n k }
    ensures { NoneAbove n (value_of (file_parts file.now n k)) result }
{
    let mut most: u32 = SENTINEL as u32;
    for j in 0..k {
        most = most.max(entry_distance(file, n, j));
    }
    most
}

// A distance that nothing added is above.
fn most_added(of: Addend, b: &[u8], n: usize, kb: usize) -> u32
    requires { CheckedMap b.now n kb }
    ensures { NoneAbove n (addend_at of (file_parts b.now n kb)) result }
{
    match of {
        Addend::Map => most_in(b, n, kb),
        Addend::Number(d) => d,
    }
}

// The least slot where the result is too large, or n. Where the largest of both come to a distance, no walk is needed.
pub fn first_too_large(of: Addend, a: &[u8], b: &[u8], n: usize, ka: usize, kb: usize) -> usize
    requires checked_pair { CheckedPair a.now b.now n ka kb }
    requires small { Small of }
    ensures { result ≡ first_below (too_large of (file_parts a.now n ka) (file_parts b.now n kb)) n }
{
    if most_added(of, b, n, kb) <= MAX_DISTANCE - most_in(a, n, ka) {
        return n;
    }
    walk_large(of, a, b, n, ka, kb)
}
