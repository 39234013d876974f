// A cursor in the overflow entries of a checked map, for a walk over rising slots that visits every slot in
// overflow: the entry at the cursor is the next one that the walk meets.
ghost use Rattle.std.specs.Prelude.{◌≡◌, ◌<◌};
ghost use Rattle.pciv_format.specs.Check.{file_parts, CheckedMap};
ghost use Rattle.pciv_map.specs.Cursor.{Cursor, TakenAt, next_slot};

use crate::entries::{entry_distance, entry_slot};
use pciv_format::{HEADER_LEN, SENTINEL};

// The distance at a slot, and the cursor behind it.
#[derive(Clone, Copy)]
pub struct Taken {
    pub distance: u32,
    pub next: usize,
}

// Takes the distance at a slot, where the cursor is at entry j.
pub fn take_at(file: &[u8], n: usize, k: usize, j: usize, slot: usize) -> Taken
    requires checked_map { CheckedMap file.now n k }
    requires slot_lt_n { (slot < n) × Cursor (file_parts file.now n k) j slot }
    ensures { TakenAt (file_parts file.now n k) slot result }
{
    let byte = file[HEADER_LEN + slot];
    if byte < SENTINEL {
        return Taken {
            distance: byte as u32,
            next: j,
        };
    }
    Taken {
        distance: entry_distance(file, n, j),
        next: j + 1,
    }
}

// The next slot in overflow, where the cursor is at entry j; n where there is none.
pub fn next_slot(file: &[u8], n: usize, k: usize, j: usize) -> usize
    requires { CheckedMap file.now n k }
    ensures { result ≡ next_slot (file_parts file.now n k) j }
{
    if j < k {
        return entry_slot(file, n, j);
    }
    n
}
