// The signed difference of two maps (docs/FORMAT.md, "Arithmetic"): the exact b - a of each slot, as a list.
// One pass over both primary arrays gives the difference of the bytes; then what each distance in overflow has
// above its byte 255 is put right, entry by entry, in one map and in the other.
#![tactic(auto)]

ghost use Rattle.std.specs.Prelude.{◌≡◌, ◌+◌, ◌-◌, ◌^◌, ◌≤◌, ◌<◌, pos, ◌-ℤ◌, length};
ghost use Rattle.std.specs.Int.Signed.{mag};
ghost use Rattle.std.proofs.lemmas.List.Edits.{sets};
ghost use Rattle.pciv_bytes.specs.Ranges.{table};
ghost use Rattle.pciv_bytes.specs.ByteAt.{byte_at};
ghost use Rattle.pciv_format.specs.Parts.{value_of};
ghost use Rattle.pciv_format.specs.Check.{file_parts, CheckedMap};
ghost use Rattle.pciv_check.specs.Pair.{CheckedPair};
ghost use Rattle.pciv_arith_change.specs.Differences.{difference_at, raised_at, lowered_at, moved_by};
ghost use Rattle.pciv_arith_change.specs.Differences.{moved_from, SmallFrom};

use pciv_format::{HEADER_LEN, SENTINEL};
use pciv_map::entries::{entry_distance, entry_slot};

// What is put right: distances that the difference takes off, those of map a, or that it is taken from, of map b.
#[derive(Clone, Copy)]
enum Side {
    Subtracted,
    Reduced,
}

// Differences of bytes are made in parts of this many, as 16-bit numbers in a list of their own and then as 64-bit
// numbers: one instruction makes eight of the former, and none makes several of the latter from bytes.
const PART: usize = 1024;

// 255 more than y - x of two bytes, which needs no sign.
fn raised_difference(x: u8, y: u8) -> u16
    ensures { result ≡ 255 + y - x }
{
    255 + (y as u16) - (x as u16)
}

// The raised differences of `count` bytes of a and b from `from` on, to the front of out.
fn raised_differences(out: &mut [u16], a: &[u8], b: &[u8], from: usize, count: usize)
    requires { (count ≤ length out.old) × (from + count ≤ length a.now) × (from + count ≤ length b.now) }
    ensures { out.new ≡ sets out.old 0 (table (raised_at (byte_at a.now) (byte_at b.now) from) 0 count) }
{
    for i in 0..count {
        out[i] = raised_difference(a[from + i], b[from + i]);
    }
}

// The difference, 255 less than the raised one.
fn lowered(raised: u16) -> i64
    ensures { result ≡ pos raised -ℤ pos 255 }
{
    (raised as i64) - 255
}

// The differences of the first `count` raised ones, to out from `at` on.
fn lower(out: &mut [i64], raised: &[u16], at: usize, count: usize)
    requires { (count ≤ length raised.now) × (at + count ≤ length out.old) }
    ensures { out.new ≡ sets out.old at (table (lowered_at raised.now) 0 count) }
{
    for i in 0..count {
        out[at + i] = lowered(raised[i]);
    }
}

// y - x of every byte x of a and y of b, to the front of out.
fn byte_differences(a: &[u8], b: &[u8], out: &mut [i64])
    requires { (length a.now ≡ length b.now) × (length a.now ≤ length out.old) }
    ensures { out.new ≡ sets out.old 0 (table (difference_at (byte_at a.now) (byte_at b.now)) 0 (length a.now)) }
{
    let mut raised = [0u16; PART];
    let mut i = 0;
    while i < a.len() {
        let count = PART.min(a.len() - i);
        raised_differences(&mut raised, a, b, i, count);
        lower(out, &raised, i, count);
        i += count;
    }
}

// The difference z, where the distance of one side is `excess` more.
fn moved(side: Side, z: i64, excess: u32) -> i64
    requires { mag z < 2 ^ 40 }
    ensures { result ≡ moved_by side z excess }
{
    match side {
        Side::Subtracted => z - (excess as i64),
        Side::Reduced => z + (excess as i64),
    }
}

// Puts right what stands at the slots of a map's overflow entries.
fn move_entries(side: Side, file: &[u8], n: usize, k: usize, out: &mut [i64])
    requires checked_map { CheckedMap file.now n k }
    requires n_in_bounds { (n ≤ length out.old) × SmallFrom 0 n out.old }
    ensures { out.new ≡ moved_from side (file_parts file.now n k) 0 k out.old }
{
    for j in 0..k {
        let slot = entry_slot(file, n, j);
        let excess = entry_distance(file, n, j) - SENTINEL as u32;
        out[slot] = moved(side, out[slot], excess);
    }
}

// The differences of two checked maps, to the front of out.
pub fn differences_into(a: &[u8], b: &[u8], n: usize, ka: usize, kb: usize, out: &mut [i64])
    requires checked_pair { CheckedPair a.now b.now n ka kb }
    requires n_in_bounds { n ≤ length out.old }
    ensures { out.new ≡ sets out.old 0 (table (difference_at (value_of (file_parts a.now n ka)) (value_of (file_parts b.now n kb))) 0 n) }
{
    let end = HEADER_LEN + n;
    byte_differences(&a[HEADER_LEN..end], &b[HEADER_LEN..end], out);
    move_entries(Side::Reduced, b, n, kb, out);
    move_entries(Side::Subtracted, a, n, ka, out);
}
