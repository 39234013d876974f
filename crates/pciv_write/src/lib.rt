// Writing a map (docs/FORMAT.md, "Writing"): the file of a list of distances, to the front of the caller's buffer.
// The distances are counted and cut to their primary bytes in two passes, each of which the compiler does for many slots
// at once; the primary bytes then tell the slots in overflow. pciv_build adds the header and the sparse index.
#![tactic(auto)]

ghost use Rattle.std.specs.Prelude.{◌≡◌, ◌+◌, ◌*◌, ◌≤◌, length};
ghost use Rattle.std.proofs.lemmas.List.Edits.{sets};
ghost use Rattle.pciv_bytes.specs.Ranges.{flag};
ghost use Rattle.pciv_format.specs.Layout.{max_slots, in_overflow, primary, overflow_count, overflow_part, at};
ghost use Rattle.pciv_format.specs.Write.{write_outcome, write_buffer};
ghost use Rattle.pciv_build.specs.Slots.{HoldsPrimary};

use pciv_build::slots::put_slots;
use pciv_build::{begin, finish, put_entry};
use pciv_bytes::little_endian::get64;
use pciv_format::{HEADER_LEN, MAX_SLOTS, Refusal, RefusalKind, SENTINEL, Summary};
use pciv_layout::primary_byte;
use pciv_layout::refusals::refuse;
use pciv_map::totals::summary_of;

// The least distance that is in overflow.
const OVERFLOW_MIN: u32 = SENTINEL as u32;

// 1 for a distance that is in overflow, else 0.
fn overflow_flag(x: u32) -> u32
    ensures { result ≡ flag (in_overflow x) }
{
    u32::from(OVERFLOW_MIN <= x)
}

// How many distances are in overflow.
fn count_overflow(distances: &[u32]) -> usize
    requires { length distances.now ≤ max_slots }
    ensures { result ≡ overflow_count (length distances.now) (at distances.now) }
{
    distances.iter().map(|x| overflow_flag(*x)).sum::<u32>() as usize
}

// Writes the primary array.
fn put_primary(out: &mut [u8], distances: &[u32])
    requires { 40 + length distances.now ≤ length out.old }
    ensures { out.new ≡ sets out.old 40 (primary (length distances.now) (at distances.now)) }
{
    for (i, x) in distances.iter().enumerate() {
        out[HEADER_LEN + i] = primary_byte(*x);
    }
}

// Writes all overflow entries, k of them, where the primary bytes stand in the buffer: first their slots, then at each
// slot the distance.
fn put_entries(out: &mut [u8], distances: &[u32], k: usize)
    requires distances_len_bound { length distances.now ≤ max_slots }
    requires k_value { k ≡ overflow_count (length distances.now) (at distances.now) }
    requires k_in_bounds { 40 + length distances.now + 12 * k ≤ length out.old }
    requires holds_primary { HoldsPrimary (length distances.now) (at distances.now) out.old }
    ensures { out.new ≡ sets out.old (40 + length distances.now) (overflow_part (length distances.now) (at distances.now)) }
{
    let n = distances.len();
    put_slots(out, n);
    let start = HEADER_LEN + n;
    for j in 0..k {
        let place = start + 12 * j;
        let slot = get64(out, place);
        put_entry(out, place, slot, distances[slot]);
    }
}

// Writes the file of a list of distances to the front of the caller's buffer. Refusals: 3 with map 1, then 12.
// A refused call changes no byte, and bytes past the file stay as they were.
pub fn write(distances: &[u32], out: &mut [u8]) -> Result<Summary, Refusal>
    ensures answer { result ≡ write_outcome distances.now (length out.old) }
    ensures buffer { out.new ≡ write_buffer distances.now out.old }
{
    let n = distances.len();
    let is_large = MAX_SLOTS < n;
    if is_large {
        return refuse(RefusalKind::TooManySlots, 1, 0);
    }
    let k = count_overflow(distances);
    let counts = begin(out, n, k)?;
    put_primary(out, distances);
    put_entries(out, distances, k);
    finish(out, n, k);
    Ok(summary_of(out, counts))
}
