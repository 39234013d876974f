// The distance at a slot of a checked map and where it is stored, through the sparse index where there is one; of a
// list of slots in `list`. What is counted is defined in specs/Lookup.antt; in pciv_format, a slot's distance and entry
// in specs/Parts.antt, and its origin in specs/Read.antt.
#![tactic(auto)]

mod eight;
pub mod list;

ghost use Rattle.std.specs.Prelude.{◌≡◌, ◌^◌, ◌<◌, ltb};
ghost use Rattle.pciv_bytes.specs.Ranges.{flag};
ghost use Rattle.pciv_format.specs.Parts.{entry_of, value_of};
ghost use Rattle.pciv_format.specs.Check.{file_parts, CheckedMap};
ghost use Rattle.pciv_format.specs.Read.{located};
ghost use Rattle.pciv_map_lookup.specs.Lookup.{lower_bound, entries_below, block_start, block_end, key_at, KeyTable};

use pciv_bytes::little_endian::get64;
use pciv_format::{HEADER_LEN, Located, Origin, SENTINEL};
use pciv_map::entries::entry_distance;

// Keys and slots are below half of the numbers that fit.
pub(crate) const HALF_RANGE: usize = 0x8000_0000_0000_0000;

// 1 where x is below y, else 0. Computed without a branch, which a search would guess wrong every other time.
fn is_below(x: usize, y: usize) -> usize
    requires { (x < 2 ^ 63) × (y < 2 ^ 63) }
    ensures { result ≡ flag (ltb x y) }
{
    (y + (HALF_RANGE - 1) - x) / HALF_RANGE
}

// The number of keys below `key` in a sorted table of count records, which starts at `base` and has a
// record every `stride` bytes.
fn lower_bound(file: &[u8], base: usize, stride: usize, count: usize, key: usize) -> usize
    requires key_table { KeyTable file.now base stride count }
    requires key_bound { key < 2 ^ 63 }
    ensures { result ≡ lower_bound (key_at file.now base stride) key count }
{
    let mut lo: usize = 0;
    let mut len = count;
    while 0 < len {
        let half = len / 2;
        let rest = len - half;
        let found = get64(file, base + stride * (lo + rest - 1));
        lo += rest * is_below(found, key);
        len = half;
    }
    lo
}

// Where the block starts after i index entries with a smaller slot.
fn block_start(i: usize, step: usize) -> usize
    requires { block_start i step < 2 ^ 64 }
    ensures { result ≡ block_start i step }
{
    if i == 0 {
        return 0;
    }
    (i - 1) * step
}

// Where it ends: the last of the m blocks has the rest of the k entries.
fn block_end(i: usize, m: usize, step: usize, k: usize) -> usize
    requires { block_end i m step k < 2 ^ 64 }
    ensures { result ≡ block_end i m step k }
{
    if i < m {
        return i * step;
    }
    k
}

// The number of overflow entries with a smaller slot: where the entry of the slot stands, if it has one.
// The m and the step of the sparse index stand in the header. The index names a block of the entries; where
// there is no index, m is 0 and the block is all of them.
pub fn entry_of(file: &[u8], n: usize, k: usize, slot: usize) -> usize
    requires { CheckedMap file.now n k }
    ensures { result ≡ entries_below (file_parts file.now n k) slot }
{
    if n <= slot {
        return k;
    }
    let m = get64(file, 24);
    let step = get64(file, 32);
    let entries = HEADER_LEN + n;
    let i = lower_bound(file, entries + 12 * k, 16, m, slot);
    let start = block_start(i, step);
    let end = block_end(i, m, step, k);
    start + lower_bound(file, entries + 12 * start, 12, end - start, slot)
}

// The distance at a slot, and where it is stored.
pub fn locate(file: &[u8], n: usize, k: usize, slot: usize) -> Located
    requires checked_map { CheckedMap file.now n k }
    requires slot_lt_n { slot < n }
    ensures { result
        ≡ located (value_of (file_parts file.now n k) slot)
        k (entry_of (file_parts file.now n k) slot) }
{
    let byte = file[HEADER_LEN + slot];
    let is_inline = byte < SENTINEL;
    if is_inline {
        return Located {
            distance: byte as u32,
            origin: Origin::Inline,
        };
    }
    let j = entry_of(file, n, k, slot);
    Located {
        distance: entry_distance(file, n, j),
        origin: Origin::Overflow(j),
    }
}
