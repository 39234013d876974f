// Combinations that are in overflow only where the first map is, as the minimum and the difference: a walk over
// the overflow entries of the first map finds all of theirs, with a second cursor in those of the second map.
ghost use Rattle.std.specs.Prelude.{◌≡◌, ◌+◌, ◌*◌, ◌≤◌, ◌<◌, length, get_or};
ghost use Rattle.std.proofs.lemmas.List.Edits.{sets};
ghost use Rattle.pciv_format.specs.Layout.{overflow_count, overflow_part};
ghost use Rattle.pciv_format.specs.Parts.{lowest_slot, entry_of};
ghost use Rattle.pciv_format.specs.Check.{file_parts, CheckedMap};
ghost use Rattle.pciv_check.specs.Pair.{CheckedPair};
ghost use Rattle.pciv_arith_merge.specs.Merge.{combined_of, parts_put, Shrinks, Before, FoundAt};
ghost use Rattle.pciv_arith_merge.specs.Merge.{CombinedAt, InlineRight};

use crate::slots::slot_op;
use pciv_build::put_entry;
use pciv_format::{HEADER_LEN, SENTINEL, SlotOp};
use pciv_layout::primary_byte;
use pciv_map::entries::{entry_distance, entry_slot};

// The entry of a slot that is in overflow, from entry t on.
fn seek(file: &[u8], n: usize, k: usize, t: usize, slot: usize) -> usize
    requires checked_map { CheckedMap file.now n k }
    requires before { Before (file_parts file.now n k) slot t }
    requires slot_lt_n { (slot < n) × (get_or file.now (40 + slot) 0 ≡ 255) }
    ensures { result ≡ entry_of (file_parts file.now n k) slot }
{
    let mut j = t;
    while entry_slot(file, n, j) < slot {
        j += 1;
    }
    j
}

// A distance, and the entry to go on from.
#[derive(Clone, Copy)]
pub struct Found {
    pub distance: u32,
    pub entry: usize,
}

// The distance at a slot; the entries before t have smaller slots.
fn find_from(file: &[u8], n: usize, k: usize, t: usize, slot: usize) -> Found
    requires checked_map { CheckedMap file.now n k }
    requires before { Before (file_parts file.now n k) slot t }
    requires slot_lt_n { slot < n }
    ensures { FoundAt (file_parts file.now n k) slot result }
{
    let byte = file[HEADER_LEN + slot];
    if byte < SENTINEL {
        return Found {
            distance: byte as u32,
            entry: t,
        };
    }
    let j = seek(file, n, k, t, slot);
    Found {
        distance: entry_distance(file, n, j),
        entry: j,
    }
}

// The slot of an entry of the first map, the combined distance there, and the second map's entry to go on from.
#[derive(Clone, Copy)]
pub struct Combined {
    pub slot: usize,
    pub distance: u32,
    pub next: usize,
}

// What becomes of entry j of the first map; the entries of the second map before t have smaller slots.
pub fn combine_entry(
    op: SlotOp,
    a: &[u8],
    b: &[u8],
    n: usize,
    ka: usize,
    kb: usize,
    j: usize,
    t: usize,
) -> Combined
    requires checked_pair { CheckedPair a.now b.now n ka kb }
    requires shrinks { Shrinks op }
    requires j_lt_ka { j < ka }
    requires before { Before (file_parts b.now n kb) (lowest_slot (file_parts a.now n ka) j) t }
    ensures { CombinedAt op (file_parts a.now n ka) (file_parts b.now n kb) j result }
{
    let slot = entry_slot(a, n, j);
    let found = find_from(b, n, kb, t, slot);
    let y = found.distance;
    let next = found.entry;
    Combined {
        slot,
        distance: slot_op(op, entry_distance(a, n, j), y),
        next,
    }
}

// How many slots of the result are in overflow.
pub fn count_led(op: SlotOp, a: &[u8], b: &[u8], n: usize, ka: usize, kb: usize) -> usize
    requires checked_pair { CheckedPair a.now b.now n ka kb }
    requires shrinks { Shrinks op }
    ensures { result ≡ overflow_count n (combined_of op (file_parts a.now n ka) (file_parts b.now n kb)) }
{
    let mut count: usize = 0;
    let mut t: usize = 0;
    for j in 0..ka {
        let found = combine_entry(op, a, b, n, ka, kb, j, t);
        t = found.next;
        if 255 <= found.distance {
            count += 1;
        }
    }
    count
}

// Writes the overflow entries of the result, from `from` on.
pub fn put_led(
    out: &mut [u8],
    op: SlotOp,
    a: &[u8],
    b: &[u8],
    n: usize,
    ka: usize,
    kb: usize,
    from: usize,
)
    requires checked_pair { CheckedPair a.now b.now n ka kb }
    requires shrinks { Shrinks op }
    requires kb_in_bounds { from + 12 * overflow_count n (combined_of op (file_parts a.now n ka) (file_parts b.now n kb)) ≤ length out.old }
    ensures { out.new ≡ sets out.old from (overflow_part n (combined_of op (file_parts a.now n ka) (file_parts b.now n kb))) }
{
    let mut at = from;
    let mut t: usize = 0;
    for j in 0..ka {
        let entry = combine_entry(op, a, b, n, ka, kb, j, t);
        t = entry.next;
        let is_far = 255 <= entry.distance;
        if is_far {
            at = put_entry(out, at, entry.slot, entry.distance);
        }
    }
}

// Puts the primary bytes right where the first map is in overflow, the others are right, and writes the overflow entries
// of the result behind them.
pub fn settle_led(out: &mut [u8], op: SlotOp, a: &[u8], b: &[u8], n: usize, ka: usize, kb: usize)
    requires checked_pair { CheckedPair a.now b.now n ka kb }
    requires shrinks { Shrinks op }
    requires inline_right { InlineRight (file_parts a.now n ka) (combined_of op (file_parts a.now n ka) (file_parts b.now n kb)) out.old }
    requires kb_in_bounds { 40 + n + 12 * overflow_count n (combined_of op (file_parts a.now n ka) (file_parts b.now n kb)) ≤ length out.old }
    ensures { out.new ≡ parts_put n (combined_of op (file_parts a.now n ka) (file_parts b.now n kb)) out.old }
{
    let mut at = HEADER_LEN + n;
    let mut t: usize = 0;
    for j in 0..ka {
        let found = combine_entry(op, a, b, n, ka, kb, j, t);
        let slot = found.slot;
        let distance = found.distance;
        out[HEADER_LEN + slot] = primary_byte(distance);
        t = found.next;
        if 255 <= distance {
            at = put_entry(out, at, slot, distance);
        }
    }
}
