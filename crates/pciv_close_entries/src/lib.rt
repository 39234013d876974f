// Close over a slice of entry structs (docs/FORMAT.md, "Writing"): as pciv_close, with the entries in one list.
// One pass over the entries and a count of the bytes 255 decide refusals 6 and 7; only where the count is off
// does a search between the entries look for the least slot without one. Then the file is written.
#![tactic(auto)]

ghost use Rattle.std.specs.Prelude.{IfOk, ◌≡◌, ◌+◌, ◌*◌, ◌≤◌, length};
ghost use Rattle.std.proofs.lemmas.List.Edits.{sets};
ghost use Rattle.pciv_bytes.specs.Ranges.{first_below};
ghost use Rattle.pciv_format.specs.Layout.{max_slots, at};
ghost use Rattle.pciv_format.specs.Parts.{bad_slot, EntriesRight, SoundParts};
ghost use Rattle.pciv_format.specs.Write.{close_outcome, close_buffer};
ghost use Rattle.pciv_close.specs.Close.{entries_from, parts_outcome, parts_buffer};
ghost use Rattle.pciv_close_entries.specs.Passes.{slots_of, distances_of, parts_of, entries_verdict, slots_verdict};
ghost use Rattle.pciv_close_entries.specs.Passes.{SmallDistances};

use pciv_build::{begin, finish, put_entry};
use pciv_bytes::copies::copy_bytes;
use pciv_bytes::find::find_byte;
use pciv_format::{Entry, HEADER_LEN, MAX_SLOTS, Refusal, RefusalKind, SENTINEL, Summary};
use pciv_layout::entries::wrong_entry;
use pciv_layout::refusals::refuse;
use pciv_map::totals::summary_of;
use pciv_passes::counts::count_byte;

// ---- what is refused

// Refusal 6, at the least entry that is wrong. Where there is none, each distance was read, and so is below 2^32.
fn check_entries(primary: &[u8], entries: &[Entry]) -> Result<(), Refusal>
    ensures answer { result ≡ entries_verdict (parts_of primary.now entries.now) }
    ensures small { IfOk result (λ _. SmallDistances entries.now) }
{
    let mut lowest: usize = 0;
    for (j, e) in entries.iter().enumerate() {
        let slot = e.slot as usize;
        if wrong_entry(primary, lowest, slot, e.distance) {
            return refuse(RefusalKind::BadOverflowEntry, 1, j);
        }
        lowest = slot + 1;
    }
    Ok(())
}

// The least slot with byte 255 that no entry has, or n, by a search between the entries.
fn search_slots(primary: &[u8], entries: &[Entry]) -> usize
    requires { EntriesRight (parts_of primary.now entries.now) }
    ensures { result ≡ first_below (bad_slot (parts_of primary.now entries.now)) (length primary.now) }
{
    let mut from: usize = 0;
    for e in entries {
        let slot = e.slot as usize;
        let full = find_byte(primary, from, slot, SENTINEL);
        if full < slot {
            return full;
        }
        from = slot + 1;
    }
    find_byte(primary, from, primary.len(), SENTINEL)
}

// Refusal 7, at that slot; where the bytes 255 are as many as the entries, each has one.
fn check_slots(primary: &[u8], entries: &[Entry]) -> Result<(), Refusal>
    requires { EntriesRight (parts_of primary.now entries.now) }
    ensures { result ≡ slots_verdict (parts_of primary.now entries.now) }
{
    if count_byte(primary, SENTINEL) == entries.len() {
        return Ok(());
    }
    let slot = search_slots(primary, entries);
    if slot < primary.len() {
        return refuse(RefusalKind::MissingOverflowEntry, 1, slot);
    }
    Ok(())
}

// ---- what is written

// The entries in their order, from `start` on.
fn put_entries(out: &mut [u8], start: usize, entries: &[Entry])
    requires { start + 12 * length entries.now ≤ length out.old }
    ensures { out.new ≡ sets out.old start (entries_from (at (slots_of entries.now)) (at (distances_of entries.now)) 0 (length entries.now)) }
{
    for (j, e) in entries.iter().enumerate() {
        put_entry(out, start + 12 * j, e.slot as usize, e.distance);
    }
}

// The file of sound parts. Refusal: 12.
fn put_file(out: &mut [u8], primary: &[u8], entries: &[Entry]) -> Result<Summary, Refusal>
    requires primary_len_bound { length primary.now ≤ max_slots }
    requires sound_parts { SoundParts (parts_of primary.now entries.now) }
    requires small { SmallDistances entries.now }
    ensures answer { result ≡ parts_outcome (parts_of primary.now entries.now) (length out.old) }
    ensures buffer { out.new ≡ parts_buffer (parts_of primary.now entries.now) out.old }
{
    let n = primary.len();
    let k = entries.len();
    let counts = begin(out, n, k)?;
    copy_bytes(primary, out, HEADER_LEN);
    put_entries(out, HEADER_LEN + n, entries);
    finish(out, n, k);
    Ok(summary_of(out, counts))
}

// As `close`, with the entries as structs.
#[tactic(auto, unfolding(pciv_format::specs::Write::close_outcome, pciv_format::specs::Write::close_buffer))]
pub fn close_entries(primary: &[u8], entries: &[Entry], out: &mut [u8]) -> Result<Summary, Refusal>
    ensures answer { result ≡ close_outcome primary.now (slots_of entries.now) (distances_of entries.now) (length out.old) }
    ensures buffer { out.new ≡ close_buffer primary.now (slots_of entries.now) (distances_of entries.now) out.old }
{
    if MAX_SLOTS < primary.len() {
        return refuse(RefusalKind::TooManySlots, 1, 0);
    }
    check_entries(primary, entries)?;
    check_slots(primary, entries)?;
    put_file(out, primary, entries)
}
