// The distances at a list of slots of a checked map, and the numbers of their overflow entries.
ghost use Rattle.std.specs.Prelude.{◌≡◌, map, ℕ, ◌≤◌, ◌<◌, length, get_or};
ghost use Rattle.std.proofs.lemmas.List.Edits.{sets};
ghost use Rattle.pciv_format.specs.Parts.{entry_of, value_of};
ghost use Rattle.pciv_format.specs.Check.{file_parts, CheckedMap};

use crate::eight::{locate_few, locate8};
use pciv_format::{HEADER_LEN, SENTINEL};

// The distances at the slots of a list, which are all below n, and the numbers of their overflow entries, to the front of
// the caller's lists. The primary byte and k, for inline, are written first; the places of those that are in overflow
// wait until there are eight.
pub fn locate_into(
    file: &[u8],
    n: usize,
    k: usize,
    slots: &[usize],
    distances: &mut [u32],
    entries: &mut [usize],
)
    requires checked_map { CheckedMap file.now n k }
    requires by_index { (i : ℕ) → i < length slots.now → get_or slots.now i 0 < n }
    requires slots_in_bounds { (length slots.now ≤ length distances.old) × (length slots.now ≤ length entries.old) }
    ensures distances_after { distances.new
        ≡ sets distances.old 0
        (map (value_of (file_parts file.now n k)) slots.now) }
    ensures entries_after { entries.new
        ≡ sets entries.old 0
        (map (entry_of (file_parts file.now n k)) slots.now) }
{
    let mut places = [0usize; 8];
    let mut waiting = 0;
    for (i, slot) in slots.iter().enumerate() {
        let byte = file[HEADER_LEN + *slot];
        distances[i] = byte as u32;
        entries[i] = k;
        places[waiting] = i;
        waiting += (byte == SENTINEL) as usize;
        if waiting == 8 {
            locate8(distances, entries, file, n, k, slots, &places);
            waiting = 0;
        }
    }
    locate_few(distances, entries, file, n, k, slots, &places, waiting);
}
