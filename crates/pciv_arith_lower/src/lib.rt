// A checked map with its non-zero distances lowered by m, to 1 at the least, written as a file; a zero distance stays.
// Only what is in overflow can be so afterwards: the primary bytes are lowered all at once, then a walk over the overflow
// entries puts the bytes of their slots right, and another writes the entries that are left.
#![tactic(auto)]

ghost use Rattle.std.specs.Prelude.{◌≡◌, ◌+◌, ◌*◌, ◌≤◌, length};
ghost use Rattle.std.proofs.lemmas.List.Edits.{sets};
ghost use Rattle.pciv_format.specs.Layout.{primary, overflow_count, overflow_part};
ghost use Rattle.pciv_format.specs.Check.{file_parts, CheckedMap};
ghost use Rattle.pciv_format.specs.Write.{map_into, file_buffer};
ghost use Rattle.pciv_arith_lower.specs.Lowered.{lowered, lowered_at};

use pciv_build::{begin, finish, put_entry};
use pciv_format::{HEADER_LEN, Refusal, Summary};
use pciv_layout::primary_byte;
use pciv_map::entries::{entry_distance, entry_slot};
use pciv_map::totals::summary_of;
use pciv_passes::pairs::{ByteOp, map_into};

// A non-zero distance lowered by m, to 1 at the least.
fn lower(x: u32, m: u32) -> u32
    requires { 1 ≤ x }
    ensures { result ≡ lowered m x }
{
    x.saturating_sub(m).max(1)
}

// How many slots of the result are in overflow.
fn count_lowered(file: &[u8], n: usize, k: usize, m: u32) -> usize
    requires { CheckedMap file.now n k }
    ensures { result ≡ overflow_count n (lowered_at (file_parts file.now n k) m) }
{
    let mut count: usize = 0;
    for j in 0..k {
        let x = lower(entry_distance(file, n, j), m);
        if 255 <= x {
            count += 1;
        }
    }
    count
}

// Writes the primary bytes of the result.
fn put_primary(out: &mut [u8], file: &[u8], n: usize, k: usize, m: u32)
    requires checked_map { CheckedMap file.now n k }
    requires n_in_bounds { 40 + n ≤ length out.old }
    ensures { out.new ≡ sets out.old 40 (primary n (lowered_at (file_parts file.now n k) m)) }
{
    let end = HEADER_LEN + n;
    map_into(
        ByteOp::Lower,
        &file[HEADER_LEN..end],
        primary_byte(m),
        out,
        HEADER_LEN,
    );
    for j in 0..k {
        let slot = entry_slot(file, n, j);
        out[HEADER_LEN + slot] = primary_byte(lower(entry_distance(file, n, j), m));
    }
}

// Writes the overflow entries of the result.
fn put_entries(out: &mut [u8], file: &[u8], n: usize, k: usize, m: u32)
    requires checked_map { CheckedMap file.now n k }
    requires m_in_bounds { 40 + n + 12 * overflow_count n (lowered_at (file_parts file.now n k) m) ≤ length out.old }
    ensures { out.new ≡ sets out.old (40 + n) (overflow_part n (lowered_at (file_parts file.now n k) m)) }
{
    let mut at = HEADER_LEN + n;
    for j in 0..k {
        let slot = entry_slot(file, n, j);
        let x = lower(entry_distance(file, n, j), m);
        if 255 <= x {
            at = put_entry(out, at, slot, x);
        }
    }
}

// Writes the result's file to the front of out. Refusal: 12.
pub fn lowered_into(
    file: &[u8],
    n: usize,
    k: usize,
    m: u32,
    out: &mut [u8],
) -> Result<Summary, Refusal>
    requires { CheckedMap file.now n k }
    ensures answer { result ≡ map_into n (lowered_at (file_parts file.now n k) m) (length out.old) }
    ensures buffer { out.new ≡ file_buffer (map_into n (lowered_at (file_parts file.now n k) m) (length out.old)) n (lowered_at (file_parts file.now n k) m) out.old }
{
    let count = count_lowered(file, n, k, m);
    let counts = begin(out, n, count)?;
    put_primary(out, file, n, k, m);
    put_entries(out, file, n, k, m);
    finish(out, n, count);
    Ok(summary_of(out, counts))
}
