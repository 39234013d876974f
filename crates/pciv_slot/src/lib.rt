// An edit of a buffer with a checked file at its front, the sum of whose distances is known. Each routine answers as the
// editor does; they differ in what the slot's old and new distances are. The sum is adjusted and not taken again.
#![tactic(auto)]

mod change;

ghost use Rattle.std.specs.Prelude.{◌≡◌, ◌+◌, ◌-◌, ◌^◌, ◌≤◌, ◌<◌, get_or, eqb, ltb};
ghost use Rattle.pciv_format.specs.Layout.{max_slots, counts_of, summarize};
ghost use Rattle.pciv_format.specs.Refusals.{refuse};
ghost use Rattle.pciv_format.specs.Parts.{value_of};
ghost use Rattle.pciv_format.specs.Check.{file_parts};
ghost use Rattle.pciv_format.specs.Read.{list_of, total};
ghost use Rattle.pciv_format.specs.Edit.{edited_file, edit_outcome, edit_moved, edit_answer, edit_buffer};
ghost use Rattle.pciv_map_lookup.specs.Lookup.{entries_below};
ghost use Rattle.pciv_slot.specs.Change.{new_count, above_count, SummedMap, EditAt};

use crate::change::{change_entries, finish_change};
use pciv_build::put_header;
use pciv_bytes::little_endian::put32;
use pciv_format::{EditAnswer, HEADER_LEN, RefusalKind, SENTINEL};
use pciv_layout::refusals::refuse;
use pciv_layout::{counts_of, file_len, summarized};
use pciv_map::entries::entry_distance;
use pciv_map_lookup::entry_of;

// The slot is changed, the file has n slots, k overflow entries and that sum now, and `moved` entries have another number.
fn edited(n: usize, k: usize, sum: usize, moved: usize) -> EditAnswer
    requires { (n ≤ max_slots) × (k ≤ n) }
    ensures { result ≡ edit_answer (Ok (summarize (counts_of n k) sum)) moved }
{
    EditAnswer {
        outcome: Ok(summarized(counts_of(n, k), sum)),
        moved,
    }
}

// The same where the slot stays inline or in overflow: no entry gets another number.
fn stayed(n: usize, k: usize, sum: usize) -> EditAnswer
    requires { (n ≤ max_slots) × (k ≤ n) }
    ensures { result ≡ edit_answer (Ok (summarize (counts_of n k) sum)) 0 }
{
    edited(n, k, sum, 0)
}

// A refusal, which concerns no map; no entry is moved.
fn refused(kind: RefusalKind) -> EditAnswer
    ensures { result ≡ edit_answer (refuse kind 0 0) 0 }
{
    EditAnswer {
        outcome: refuse(kind, 0, 0),
        moved: 0,
    }
}

// How many of the k old entries have a larger slot than the edited one, which goes into or out of overflow: j have a
// smaller one, and where the new distance is inline, entry j is the slot's own.
fn above_count(k: usize, j: usize, distance: u32) -> usize
    requires { (distance < 255 → j < k) × (255 ≤ distance → j ≤ k) }
    ensures { result ≡ above_count k j distance }
{
    if distance < SENTINEL as u32 {
        return k - j - 1;
    }
    k - j
}

// The distance at a slot, where j entries have a smaller slot: its byte, or that of entry j.
#[tactic(auto, unfolding(pciv_format::specs::Parts::value_of))]
fn old_distance(buffer: &[u8], n: usize, k: usize, j: usize, slot: usize) -> u32
    requires edit_at { EditAt buffer.now n k slot }
    requires j_value { j ≡ entries_below (file_parts buffer.now n k) slot }
    ensures { result ≡ value_of (file_parts buffer.now n k) slot }
{
    let byte = buffer[HEADER_LEN + slot];
    if byte < SENTINEL {
        return byte as u32;
    }
    entry_distance(buffer, n, j)
}

// The sum of all distances, once one of them that was `old` is `distance`.
fn adjusted(sum: usize, old: u32, distance: u32) -> usize
    requires { (old ≤ sum) × (sum < 2 ^ 52) }
    ensures { result ≡ sum - old + distance }
{
    sum - old as usize + distance as usize
}

// Inline before and after: one byte.
fn stay_inline(
    buffer: &mut [u8],
    n: usize,
    k: usize,
    sum: usize,
    slot: usize,
    distance: u32,
) -> EditAnswer
    requires edit_at { EditAt buffer.old n k slot }
    requires slot_bound { (get_or buffer.old (40 + slot) 0 < 255) × (distance < 255) }
    requires sum_value { sum ≡ total (list_of (edited_file buffer.old)) }
    ensures answer { result ≡ edit_answer (edit_outcome buffer.old (record { slot = slot; distance = distance }))
        (edit_moved buffer.old (record { slot = slot; distance = distance })) }
    ensures buffer { buffer.new ≡ edit_buffer buffer.old (record { slot = slot; distance = distance }) }
{
    let old = buffer[HEADER_LEN + slot] as u32;
    buffer[HEADER_LEN + slot] = distance as u8;
    stayed(n, k, adjusted(sum, old, distance))
}

// In overflow before and after: the four distance bytes of its entry.
fn stay_in_overflow(
    buffer: &mut [u8],
    n: usize,
    k: usize,
    sum: usize,
    slot: usize,
    distance: u32,
) -> EditAnswer
    requires edit_at { EditAt buffer.old n k slot }
    requires slot_value { (get_or buffer.old (40 + slot) 0 ≡ 255) × (255 ≤ distance) }
    requires sum_value { sum ≡ total (list_of (edited_file buffer.old)) }
    ensures answer { result ≡ edit_answer (edit_outcome buffer.old (record { slot = slot; distance = distance }))
        (edit_moved buffer.old (record { slot = slot; distance = distance })) }
    ensures buffer { buffer.new ≡ edit_buffer buffer.old (record { slot = slot; distance = distance }) }
{
    let j = entry_of(buffer, n, k, slot);
    let old = old_distance(buffer, n, k, j, slot);
    put32(buffer, HEADER_LEN + n + 12 * j + 8, distance);
    stayed(n, k, adjusted(sum, old, distance))
}

// The slot moves into or out of overflow, after which there are `count` entries: refusal 12, or the header, the slot's
// byte and entry, the index, and zeros behind a file that has got shorter.
fn move_slot(
    buffer: &mut [u8],
    n: usize,
    k: usize,
    sum: usize,
    count: usize,
    slot: usize,
    distance: u32,
) -> EditAnswer
    requires edit_at { EditAt buffer.old n k slot }
    requires slot_value { (eqb (get_or buffer.old (40 + slot) 0) 255 ≡ ltb distance 255) × (count ≡ new_count k distance) }
    requires sum_value { sum ≡ total (list_of (edited_file buffer.old)) }
    ensures answer { result ≡ edit_answer (edit_outcome buffer.old (record { slot = slot; distance = distance }))
        (edit_moved buffer.old (record { slot = slot; distance = distance })) }
    ensures buffer { buffer.new ≡ edit_buffer buffer.old (record { slot = slot; distance = distance }) }
{
    if buffer.len() < file_len(n, count) {
        let told = refused(RefusalKind::BufferTooSmall);
        return told;
    }
    let j = entry_of(buffer, n, k, slot);
    let old = old_distance(buffer, n, k, j, slot);
    put_header(buffer, n, count);
    change_entries(buffer, n, k, j, slot, distance);
    finish_change(buffer, n, k, count);
    let after = adjusted(sum, old, distance);
    edited(n, count, after, above_count(k, j, distance))
}

// One edit, with no check of the file: refusals 9, then 12. `sum` is that of its distances.
pub fn edit_checked(
    buffer: &mut [u8],
    n: usize,
    k: usize,
    sum: usize,
    slot: usize,
    distance: u32,
) -> EditAnswer
    requires { SummedMap buffer.old n k sum }
    ensures answer { result ≡ edit_answer (edit_outcome buffer.old (record { slot = slot; distance = distance }))
        (edit_moved buffer.old (record { slot = slot; distance = distance })) }
    ensures buffer { buffer.new ≡ edit_buffer buffer.old (record { slot = slot; distance = distance }) }
{
    if n <= slot {
        return refused(RefusalKind::SlotOutOfRange);
    }
    let byte = buffer[HEADER_LEN + slot] as u32;
    let mark = SENTINEL as u32;
    if distance < mark {
        if byte < mark {
            return stay_inline(buffer, n, k, sum, slot, distance);
        }
        return move_slot(buffer, n, k, sum, k - 1, slot, distance);
    }
    if byte < mark {
        return move_slot(buffer, n, k, sum, k + 1, slot, distance);
    }
    stay_in_overflow(buffer, n, k, sum, slot, distance)
}
