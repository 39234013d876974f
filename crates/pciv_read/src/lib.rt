// Reading a map (docs/FORMAT.md, "Reading"): its primary array, one slot, a list of slots, all slots, totals.
// Every routine checks the file first and refuses as the check does, with map 1; then come 9 and 12.
// A refused call changes no byte, and what follows a result in the caller's list stays as it was.
#![tactic(auto)]

ghost use Rattle.std.specs.Prelude.{◌≡◌, length, leb};
ghost use Rattle.std.specs.List.{position};
ghost use Rattle.pciv_format.specs.Read.{primary_part, primary_place, lookup_outcome};
ghost use Rattle.pciv_format.specs.Read.{lookup_list_outcome, lookup_list_buffer, lookup_list_entries};
ghost use Rattle.pciv_format.specs.Read.{scan_outcome, scan_buffer};
ghost use Rattle.pciv_format.specs.Read.{sum_outcome, readings_outcome};

use pciv_check::{check, check_counts};
use pciv_format::{Counts, HEADER_LEN, Located, Refusal, RefusalKind};
use pciv_layout::refusals::refuse;
use pciv_map::scan::scan_into;
use pciv_map::totals::readings_of;
use pciv_map_lookup::list::locate_into;
use pciv_map_lookup::locate;

// The map's own primary bytes, the part of the caller's file from byte 40 on. Refusals: none; where the check refuses
// the file, the part of length 0 at the file's start.
pub fn primary(file: &[u8]) -> &[u8]
    ensures part { result.now ≡ primary_part file.now }
    ensures place { result.ref_ptr ≡ primary_place file.now file.entry.ref_ptr }
{
    match check_counts(file, 1) {
        Err(_) => &file[..0],
        Ok(counts) => {
            let end = HEADER_LEN + counts.n;
            &file[HEADER_LEN..end]
        }
    }
}

// The distance at a slot, and its origin. Refusals: 1 to 8, then 9.
pub fn lookup(file: &[u8], slot: usize) -> Result<Located, Refusal>
    ensures answer { result ≡ lookup_outcome file.now slot }
{
    let Counts { n, k, .. } = check_counts(file, 1)?;
    if n <= slot {
        return refuse(RefusalKind::SlotOutOfRange, 0, 0);
    }
    Ok(locate(file, n, k, slot))
}

// The least position in the list of a slot that is n or more, if there is one.
fn first_outside(slots: &[usize], n: usize) -> Option<usize>
    ensures { result ≡ position (λ slot. leb n slot) slots.now }
{
    slots.iter().position(|slot| n <= *slot)
}

// The distances at a list of slots, to the front of one list of the caller, and the numbers of their overflow entries, or
// k for inline, to the front of another; answers how many.
// Refusals: 1 to 8, then 9 with the least position in the list, then 12 where either list is too short.
pub fn lookup_list(
    file: &[u8],
    slots: &[usize],
    distances: &mut [u32],
    entries: &mut [usize],
) -> Result<usize, Refusal>
    ensures answer { result
        ≡ lookup_list_outcome file.now slots.now
        (length distances.old) (length entries.old) }
    ensures buffer { distances.new
        ≡ lookup_list_buffer file.now slots.now
        (length entries.old) distances.old }
    ensures entries { entries.new
        ≡ lookup_list_entries file.now slots.now
        (length distances.old) entries.old }
{
    let Counts { n, k, .. } = check_counts(file, 1)?;
    let outside = first_outside(slots, n);
    let short = distances.len().min(entries.len()) < slots.len();
    if let Some(place) = outside {
        let no_slot = refuse(RefusalKind::SlotOutOfRange, 0, place);
        return no_slot;
    }
    if short {
        let no_room = refuse(RefusalKind::BufferTooSmall, 0, 0);
        return no_room;
    }
    locate_into(file, n, k, slots, distances, entries);
    Ok(slots.len())
}

// All distances, to the front of the caller's list; answers how many. Refusals: 1 to 8, then 12.
pub fn scan(file: &[u8], out: &mut [u32]) -> Result<usize, Refusal>
    ensures answer { result ≡ scan_outcome file.now (length out.old) }
    ensures buffer { out.new ≡ scan_buffer file.now out.old }
{
    let Counts { n, k, .. } = check_counts(file, 1)?;
    if out.len() < n {
        return refuse(RefusalKind::BufferTooSmall, 0, 0);
    }
    scan_into(file, n, k, out);
    Ok(n)
}

// The sum of all distances. Refusals: 1 to 8.
pub fn sum(file: &[u8]) -> Result<usize, Refusal>
    ensures answer { result ≡ sum_outcome file.now }
{
    let summary = check(file)?;
    Ok(summary.sum)
}

// The number of readings, distances that are not 0. Refusals: 1 to 8.
pub fn readings(file: &[u8]) -> Result<usize, Refusal>
    ensures answer { result ≡ readings_outcome file.now }
{
    let Counts { n, .. } = check_counts(file, 1)?;
    let end = HEADER_LEN + n;
    Ok(readings_of(&file[HEADER_LEN..end]))
}
