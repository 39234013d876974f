// The maximum of two checked maps is in overflow where either map is: a walk over the entries of both, in the
// order of their slots. What it takes from each is chosen between values, and not by a branch, which a processor
// would guess wrong every other time.
ghost use Rattle.std.specs.Prelude.{◌≡◌, ◌+◌, ◌*◌, ◌≤◌, ◌<◌, length, eqb};
ghost use Rattle.std.proofs.lemmas.List.Edits.{sets};
ghost use Rattle.pciv_bytes.specs.Ranges.{flag};
ghost use Rattle.pciv_format.specs.Layout.{overflow_count, overflow_part};
ghost use Rattle.pciv_format.specs.Check.{file_parts, CheckedMap};
ghost use Rattle.pciv_format.specs.declared.SlotOp.TheVariants.{Maximum};
ghost use Rattle.pciv_check.specs.Pair.{CheckedPair};
ghost use Rattle.pciv_arith_merge.specs.Merge.{combined_of};
ghost use Rattle.pciv_arith_merge.specs.Joint.{head_of, distance_in, met_of};

use crate::slots::slot_op;
use pciv_build::put_entry;
use pciv_bytes::little_endian::{get32, get64};
use pciv_format::{HEADER_LEN, SlotOp};

// The next entry of a map: its slot and the distance there. Past the last entry the slot is n.
#[derive(Clone, Copy)]
pub struct Head {
    pub slot: usize,
    pub distance: u32,
}

// Entry j, from its place in the file.
fn read_head(file: &[u8], n: usize, k: usize, j: usize, place: usize) -> Head
    requires checked_map { CheckedMap file.now n k }
    requires place_value { place ≡ 40 + n + 12 * j }
    ensures { result ≡ head_of (file_parts file.now n k) j }
{
    if HEADER_LEN + n + 12 * k <= place {
        return Head {
            slot: n,
            distance: 0,
        };
    }
    Head {
        slot: get64(file, place),
        distance: get32(file, place + 8),
    }
}

// 1 where an entry's slot is the given one, else 0.
fn is_at(at: usize, slot: usize) -> usize
    ensures { result ≡ flag (eqb at slot) }
{
    (at == slot) as usize
}

// The distance of an entry whose slot is the given one, else 0.
fn distance_in(head: Head, slot: usize) -> u32
    ensures { result ≡ distance_in head slot }
{
    if head.slot == slot { head.distance } else { 0 }
}

// The next slot that is in overflow in either map, the larger distance there, and how many entries of each are passed
// with it.
#[derive(Clone, Copy)]
pub struct Met {
    pub slot: usize,
    pub distance: u32,
    pub first: usize,
    pub second: usize,
}

// What is met where entries j and t of the two maps are the next ones; p and q are their places.
fn meet(
    a: &[u8],
    b: &[u8],
    n: usize,
    ka: usize,
    kb: usize,
    j: usize,
    t: usize,
    p: usize,
    q: usize,
) -> Met
    requires checked_pair { CheckedPair a.now b.now n ka kb }
    requires p_value { (p ≡ 40 + n + 12 * j) × (q ≡ 40 + n + 12 * t) }
    ensures { result ≡ met_of (file_parts a.now n ka) (file_parts b.now n kb) j t }
{
    let x = read_head(a, n, ka, j, p);
    let y = read_head(b, n, kb, t, q);
    let slot = x.slot.min(y.slot);
    let dx = distance_in(x, slot);
    let dy = distance_in(y, slot);
    Met {
        slot,
        distance: slot_op(SlotOp::Maximum, dx, dy),
        first: is_at(x.slot, slot),
        second: is_at(y.slot, slot),
    }
}

// Writes the overflow entries of the maximum, from `from` on. The walk goes by the places of entries: the counts of
// those that are passed are for the proof alone, and the compiler drops them.
pub fn put_joint(out: &mut [u8], a: &[u8], b: &[u8], n: usize, ka: usize, kb: usize, from: usize)
    requires checked_pair { CheckedPair a.now b.now n ka kb }
    requires kb_in_bounds { from + 12 * overflow_count n (combined_of Maximum (file_parts a.now n ka) (file_parts b.now n kb)) ≤ length out.old }
    ensures { out.new ≡ sets out.old from (overflow_part n (combined_of Maximum (file_parts a.now n ka) (file_parts b.now n kb))) }
{
    let start = HEADER_LEN + n;
    let ends = 2 * start + 12 * (ka + kb);
    let mut at = from;
    let mut j: usize = 0;
    let mut t: usize = 0;
    let mut p = start;
    let mut q = start;
    while p + q < ends {
        let met = meet(a, b, n, ka, kb, j, t, p, q);
        at = put_entry(out, at, met.slot, met.distance);
        j += met.first;
        t += met.second;
        p += 12 * met.first;
        q += 12 * met.second;
    }
}
