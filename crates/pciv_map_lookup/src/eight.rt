// The distances and entries of slots in overflow that stand at given places of a list. Eight are searched for in step:
// a turn of a search leaves as many entries whatever the slot, and the loads of a turn do not wait for each other.
// Searches and places are defined in specs/Eight.antt.
ghost use Rattle.std.specs.Prelude.{◌≡◌, ◌+◌, ◌-◌, ◌*◌, ◌/◌, ◌^◌, ◌≤◌, ◌<◌, leb, length, set, take};
ghost use Rattle.pciv_bytes.specs.Ranges.{flag};
ghost use Rattle.pciv_bytes.specs.LittleEndian.{get};
ghost use Rattle.pciv_format.specs.Parts.{entry_of, value_of};
ghost use Rattle.pciv_format.specs.Check.{file_parts, CheckedMap};
ghost use Rattle.pciv_map_lookup.specs.Eight.{Eight, OverflowPlaces, at_place, sets_at};

use crate::{HALF_RANGE, entry_of};
use pciv_map::entries::{entry_distance, entry_slot};

// 1 where x is at most y, else 0. Computed without a branch, which a search would guess wrong every other time.
fn is_at_most(x: usize, y: usize) -> usize
    requires { (x < 2 ^ 63) × (y < 2 ^ 63) }
    ensures { result ≡ flag (leb x y) }
{
    (y + HALF_RANGE - x) / HALF_RANGE
}

// A turn of eight searches, each of which has len entries left, from the one in `first` on.
fn halve8(
    first: &mut [usize; 8],
    file: &[u8],
    n: usize,
    k: usize,
    slots: &[usize],
    places: &[usize; 8],
    len: usize,
)
    requires checked_map { CheckedMap file.now n k }
    requires overflow_places { OverflowPlaces (file_parts file.now n k) slots.now (length slots.now) places.now 8 }
    requires len_nonzero { (0 < len) × Eight (file_parts file.now n k) slots.now places.now first.old len }
    ensures { Eight (file_parts file.now n k) slots.now places.now
        first.new (len - len / 2) }
{
    let half = len / 2;
    for q in 0..8 {
        let slot = slots[places[q]];
        let found = entry_slot(file, n, first[q] + half);
        first[q] += half * is_at_most(found, slot);
    }
}

// The entries of eight slots.
fn entries8(file: &[u8], n: usize, k: usize, slots: &[usize], places: &[usize; 8]) -> [usize; 8]
    requires checked_map { CheckedMap file.now n k }
    requires overflow_places { OverflowPlaces (file_parts file.now n k) slots.now (length slots.now) places.now 8 }
    ensures { Eight (file_parts file.now n k) slots.now places.now result 1 }
{
    let mut first = [0usize; 8];
    let mut len = k;
    while 1 < len {
        halve8(&mut first, file, n, k, slots, places, len);
        len -= len / 2;
    }
    first
}

// Overflow entry j, to a place of the caller's lists: its distance, and its number.
fn put_entry(
    distances: &mut [u32],
    entries: &mut [usize],
    place: usize,
    file: &[u8],
    n: usize,
    j: usize,
)
    requires place_in_bounds { (place < length distances.old) × (place < length entries.old) }
    requires j_in_bounds { 40 + n + 12 * j + 12 ≤ length file.now }
    ensures distances_after { distances.new
        ≡ set distances.old place (get 4 file.now (40 + n + 12 * j + 8)) }
    ensures entries_after { entries.new ≡ set entries.old place j }
{
    distances[place] = entry_distance(file, n, j);
    entries[place] = j;
}

// The distances and entries of eight slots in overflow, to their places in the caller's lists.
pub(crate) fn locate8(
    distances: &mut [u32],
    entries: &mut [usize],
    file: &[u8],
    n: usize,
    k: usize,
    slots: &[usize],
    places: &[usize; 8],
)
    requires checked_map { CheckedMap file.now n k }
    requires overflow_places { OverflowPlaces (file_parts file.now n k) slots.now (length slots.now) places.now 8 }
    requires slots_in_bounds { (length slots.now ≤ length distances.old) × (length slots.now ≤ length entries.old) }
    ensures distances_after { distances.new
        ≡ sets_at (at_place (value_of (file_parts file.now n k)) slots.now)
        (take 8 places.now) distances.old }
    ensures entries_after { entries.new
        ≡ sets_at (at_place (entry_of (file_parts file.now n k)) slots.now)
        (take 8 places.now) entries.old }
{
    let found = entries8(file, n, k, slots, places);
    for q in 0..8 {
        let place = places[q];
        put_entry(distances, entries, place, file, n, found[q]);
    }
}

// The same for fewer than eight, each on its own: those at the first `count` places.
pub(crate) fn locate_few(
    distances: &mut [u32],
    entries: &mut [usize],
    file: &[u8],
    n: usize,
    k: usize,
    slots: &[usize],
    places: &[usize; 8],
    count: usize,
)
    requires checked_map { CheckedMap file.now n k }
    requires count_bound { (count ≤ 8)
        × OverflowPlaces (file_parts file.now n k) slots.now (length slots.now) places.now count }
    requires slots_in_bounds { (length slots.now ≤ length distances.old) × (length slots.now ≤ length entries.old) }
    ensures distances_after { distances.new
        ≡ sets_at (at_place (value_of (file_parts file.now n k)) slots.now)
        (take count places.now) distances.old }
    ensures entries_after { entries.new
        ≡ sets_at (at_place (entry_of (file_parts file.now n k)) slots.now)
        (take count places.now) entries.old }
{
    for q in 0..count {
        let place = places[q];
        let j = entry_of(file, n, k, slots[place]);
        put_entry(distances, entries, place, file, n, j);
    }
}
