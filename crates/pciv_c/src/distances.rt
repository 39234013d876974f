// The header's section "Distances".
ghost use Rattle.std.specs.Prelude.{◌≡◌, length};
ghost use Rattle.pciv_format.specs.Check.{k_field};
ghost use Rattle.pciv_format.specs.Read.{lookup_outcome, lookup_list_outcome, lookup_list_buffer, lookup_list_entries};
ghost use Rattle.pciv_format.specs.Read.{scan_outcome, scan_buffer};
ghost use Rattle.pciv_c_cells.specs.Cells.{ToldNumber, ToldLocated};

use pciv_c_cells::{header_k, tell_located, tell_value};
use pciv_read::{lookup, lookup_list, scan};

#[unsafe(no_mangle)]
pub extern "C" fn pciv_lookup(
    file: &[u8],
    slot: usize,
    distance: &mut u32,
    entry: &mut usize,
    refusal: &mut [usize; 3],
) -> usize
    ensures told { ToldLocated (k_field file.now) (lookup_outcome file.now slot)
        result distance.old distance.new entry.old entry.new
        refusal.new }
{
    tell_located(lookup(file, slot), header_k(file), distance, entry, refusal)
}

#[unsafe(no_mangle)]
pub extern "C" fn pciv_lookup_list(
    file: &[u8],
    slots: &[usize],
    distances: &mut [u32],
    entries: &mut [usize],
    count: &mut usize,
    refusal: &mut [usize; 3],
) -> usize
    ensures told { ToldNumber
        (lookup_list_outcome file.now slots.now
        (length distances.old) (length entries.old))
        result count.old count.new refusal.new }
    ensures buffer { distances.new
        ≡ lookup_list_buffer file.now slots.now
        (length entries.old) distances.old }
    ensures entries { entries.new
        ≡ lookup_list_entries file.now slots.now
        (length distances.old) entries.old }
{
    tell_value(lookup_list(file, slots, distances, entries), count, refusal)
}

#[unsafe(no_mangle)]
pub extern "C" fn pciv_scan(
    file: &[u8],
    distances: &mut [u32],
    count: &mut usize,
    refusal: &mut [usize; 3],
) -> usize
    ensures told { ToldNumber (scan_outcome file.now (length distances.old))
        result count.old count.new refusal.new }
    ensures buffer { distances.new ≡ scan_buffer file.now distances.old }
{
    tell_value(scan(file, distances), count, refusal)
}
