// Close: the file of a primary array and its overflow entries (docs/FORMAT.md, "Writing").
// One pass over the entries and a count of the bytes 255 decide refusals 6 and 7; only where the count is off
// does a search between the entries look for the least slot without one. Then the file is written.
#![tactic(auto)]

ghost use Rattle.std.specs.Prelude.{◌≡◌, ◌+◌, ◌*◌, max, ◌≤◌, length};
ghost use Rattle.std.proofs.lemmas.List.Edits.{sets};
ghost use Rattle.pciv_bytes.specs.Ranges.{first_below};
ghost use Rattle.pciv_format.specs.Layout.{max_slots, at};
ghost use Rattle.pciv_format.specs.Parts.{bad_entry, bad_slot, EntriesRight, SoundParts};
ghost use Rattle.pciv_format.specs.Write.{close_parts, close_outcome, close_buffer};
ghost use Rattle.pciv_close.specs.Close.{slot_parts, entries_from, parts_outcome, parts_buffer};

use pciv_build::{begin, finish, put_entry};
use pciv_bytes::copies::copy_bytes;
use pciv_bytes::find::find_byte;
use pciv_format::{HEADER_LEN, MAX_SLOTS, Refusal, RefusalKind, SENTINEL, Summary};
use pciv_layout::entries::wrong_entry;
use pciv_layout::refusals::refuse;
use pciv_map::totals::summary_of;
use pciv_passes::counts::count_byte;

// ---- what is refused

// The least entry that is wrong, or how many there are. Where one list is shorter, the entry that it lacks is wrong.
fn first_bad_entry(primary: &[u8], slots: &[usize], distances: &[u32]) -> usize
    ensures { result
        ≡ first_below (bad_entry (close_parts primary.now slots.now distances.now))
        (max (length slots.now) (length distances.now)) }
{
    let end = slots.len().min(distances.len());
    let mut lowest = 0;
    for j in 0..end {
        if wrong_entry(primary, lowest, slots[j], distances[j]) {
            return j;
        }
        lowest = slots[j] + 1;
    }
    end
}

// The least slot with byte 255 that is not among the entries' slots, or n, by a search between them.
fn search_slots(primary: &[u8], slots: &[usize]) -> usize
    requires { EntriesRight (slot_parts primary.now slots.now) }
    ensures { result ≡ first_below (bad_slot (slot_parts primary.now slots.now)) (length primary.now) }
{
    let mut from = 0;
    for slot in slots {
        let full = find_byte(primary, from, *slot, SENTINEL);
        if full < *slot {
            return full;
        }
        from = *slot + 1;
    }
    find_byte(primary, from, primary.len(), SENTINEL)
}

// The same; where the bytes 255 are as many as the entries, each has one.
fn first_bad_slot(primary: &[u8], slots: &[usize]) -> usize
    requires { EntriesRight (slot_parts primary.now slots.now) }
    ensures { result ≡ first_below (bad_slot (slot_parts primary.now slots.now)) (length primary.now) }
{
    if count_byte(primary, SENTINEL) == slots.len() {
        return primary.len();
    }
    search_slots(primary, slots)
}

// ---- what is written

// The entries in their order, from `start` on.
fn put_entries(out: &mut [u8], start: usize, slots: &[usize], distances: &[u32])
    requires { (length slots.now ≡ length distances.now) × (start + 12 * length slots.now ≤ length out.old) }
    ensures { out.new ≡ sets out.old start (entries_from (at slots.now) (at distances.now) 0 (length slots.now)) }
{
    let mut place = start;
    for (slot, distance) in slots.iter().zip(distances) {
        place = put_entry(out, place, *slot, *distance);
    }
}

// The file of sound parts. Refusal: 12.
fn put_file(
    out: &mut [u8],
    primary: &[u8],
    slots: &[usize],
    distances: &[u32],
) -> Result<Summary, Refusal>
    requires primary_len_bound { length primary.now ≤ max_slots }
    requires sound_parts { SoundParts (close_parts primary.now slots.now distances.now) }
    ensures answer { result ≡ parts_outcome (close_parts primary.now slots.now distances.now) (length out.old) }
    ensures buffer { out.new ≡ parts_buffer (close_parts primary.now slots.now distances.now) out.old }
{
    let n = primary.len();
    let k = slots.len();
    let counts = begin(out, n, k)?;
    copy_bytes(primary, out, HEADER_LEN);
    put_entries(out, HEADER_LEN + n, slots, distances);
    finish(out, n, k);
    Ok(summary_of(out, counts))
}

// Writes the file of a primary array and its overflow entries, entry j being slots[j] with distances[j], to the
// front of the caller's buffer. Refusals: 3, 6 and 7 with map 1, then 12. Where the lists differ in length, the
// first entry that one of them lacks is wrong (6); this is chosen here: the format's source has no such case.
// A refused call changes no byte, and bytes past the file stay.
pub fn close(
    primary: &[u8],
    slots: &[usize],
    distances: &[u32],
    out: &mut [u8],
) -> Result<Summary, Refusal>
    ensures answer { result ≡ close_outcome primary.now slots.now distances.now (length out.old) }
    ensures buffer { out.new ≡ close_buffer primary.now slots.now distances.now out.old }
{
    let n = primary.len();
    if MAX_SLOTS < n {
        return refuse(RefusalKind::TooManySlots, 1, 0);
    }
    let entry = first_bad_entry(primary, slots, distances);
    let count = slots.len().max(distances.len());
    if entry < count {
        return refuse(RefusalKind::BadOverflowEntry, 1, entry);
    }
    let slot = first_bad_slot(primary, slots);
    let is_missing = slot < n;
    if is_missing {
        return refuse(RefusalKind::MissingOverflowEntry, 1, slot);
    }
    put_file(out, primary, slots, distances)
}
