// The parts of the result: how many of its slots are in overflow, its primary bytes, its overflow entries.
ghost use Rattle.std.specs.Prelude.{◌≡◌, ◌+◌, ◌-◌, ◌*◌, ◌≤◌, max, length};
ghost use Rattle.std.proofs.lemmas.List.Edits.{sets};
ghost use Rattle.pciv_format.specs.Layout.{primary_byte, primary, overflow_count, overflow_part};
ghost use Rattle.pciv_format.specs.Check.{file_parts};
ghost use Rattle.pciv_check.specs.Pair.{CheckedPair};
ghost use Rattle.pciv_build.specs.Build.{Fits};
ghost use Rattle.pciv_build.specs.Slots.{HoldsPrimary};
ghost use Rattle.pciv_arith_add.specs.Addition.{added_at};

use crate::addend::{Addend, take_addend};
use pciv_build::put_entry;
use pciv_build::slots::put_slots;
use pciv_bytes::little_endian::get64;
use pciv_format::{HEADER_LEN, SENTINEL};
use pciv_layout::primary_byte;
use pciv_map::cursor::take_at;
use pciv_passes::counts::count_from;
use pciv_passes::pairs::{ByteOp, count_full, map_into, zip_into};

// The byte from which on a distance comes into overflow where d is added: at least 1, since a zero distance stays.
fn first_full(d: u32) -> u8
    ensures { result ≡ max 1 (255 - primary_byte d) }
{
    (SENTINEL - primary_byte(d)).max(1)
}

// How many slots of the result are in overflow.
pub fn count_added(of: Addend, a: &[u8], b: &[u8], n: usize, ka: usize, kb: usize) -> usize
    requires { CheckedPair a.now b.now n ka kb }
    ensures { result ≡ overflow_count n (added_at of (file_parts a.now n ka) (file_parts b.now n kb)) }
{
    let end = HEADER_LEN + n;
    match of {
        Addend::Map => count_full(ByteOp::Add, &a[HEADER_LEN..end], &b[HEADER_LEN..end]),
        Addend::Number(d) => count_from(&a[HEADER_LEN..end], first_full(d)),
    }
}

// Writes the primary bytes of the result.
pub fn put_primary(out: &mut [u8], of: Addend, a: &[u8], b: &[u8], n: usize, ka: usize, kb: usize)
    requires checked_pair { CheckedPair a.now b.now n ka kb }
    requires n_in_bounds { 40 + n ≤ length out.old }
    ensures { out.new ≡ sets out.old 40 (primary n (added_at of (file_parts a.now n ka) (file_parts b.now n kb))) }
{
    let end = HEADER_LEN + n;
    match of {
        Addend::Map => zip_into(
            ByteOp::Add,
            &a[HEADER_LEN..end],
            &b[HEADER_LEN..end],
            out,
            HEADER_LEN,
        ),
        Addend::Number(d) => map_into(
            ByteOp::Raise,
            &a[HEADER_LEN..end],
            primary_byte(d),
            out,
            HEADER_LEN,
        ),
    }
}

// Writes the overflow entries of the result, k of them, whose primary bytes stand in the buffer: first their slots, then
// at each slot the distance.
pub fn put_entries(
    out: &mut [u8],
    of: Addend,
    a: &[u8],
    b: &[u8],
    n: usize,
    ka: usize,
    kb: usize,
    k: usize,
)
    requires checked_pair { CheckedPair a.now b.now n ka kb }
    requires fits { Fits n (added_at of (file_parts a.now n ka) (file_parts b.now n kb)) }
    requires holds_primary { HoldsPrimary n (added_at of (file_parts a.now n ka) (file_parts b.now n kb)) out.old }
    requires k_value { k ≡ overflow_count n (added_at of (file_parts a.now n ka) (file_parts b.now n kb)) }
    requires k_in_bounds { 40 + n + 12 * k ≤ length out.old }
    ensures { out.new ≡ sets out.old (40 + n) (overflow_part n (added_at of (file_parts a.now n ka) (file_parts b.now n kb))) }
{
    put_slots(out, n);
    let mut j = 0;
    let mut t = 0;
    for e in 0..k {
        let at = HEADER_LEN + n + 12 * e;
        let slot = get64(out, at);
        let x = take_at(a, n, ka, j, slot);
        let y = take_addend(of, b, n, kb, t, slot);
        j = x.next;
        t = y.next;
        put_entry(out, at, slot, x.distance + y.distance);
    }
}
