// The minimum, maximum or difference of two checked maps, written as a file: its length is known before the first
// byte is written, and then its parts follow one another.
ghost use Rattle.std.specs.Prelude.{◌≡◌, ◌+◌, ◌*◌, ◌≤◌, length};
ghost use Rattle.pciv_format.specs.Layout.{overflow_count};
ghost use Rattle.pciv_check.specs.Pair.{CheckedPair};
ghost use Rattle.pciv_arith_merge.specs.Merge.{result_of, parts_put, combined_into, combined_buffer};

use crate::both::count_both;
use crate::joint::put_joint;
use crate::led::{count_led, put_led, settle_led};
use crate::primary::put_primary;
use pciv_build::{begin, finish};
use pciv_format::{HEADER_LEN, Refusal, SlotOp, Summary};
use pciv_map::totals::summary_of;
use pciv_passes::pairs::ByteOp;

// The slot operations whose result is never above the larger distance.
#[derive(Clone, Copy)]
pub enum MergeOp {
    Minimum,
    Maximum,
    Difference,
}

// How many slots of the result are in overflow.
fn count_overflow(op: MergeOp, a: &[u8], b: &[u8], n: usize, ka: usize, kb: usize) -> usize
    requires { CheckedPair a.now b.now n ka kb }
    ensures { result ≡ overflow_count n (result_of op a.now b.now n ka kb) }
{
    match op {
        MergeOp::Minimum => count_both(a, b, n, ka, kb),
        MergeOp::Maximum => ka + kb - count_both(a, b, n, ka, kb),
        MergeOp::Difference => count_led(SlotOp::Difference, a, b, n, ka, kb),
    }
}

// Writes the primary array and the overflow entries of the result.
fn put_parts(out: &mut [u8], op: MergeOp, a: &[u8], b: &[u8], n: usize, ka: usize, kb: usize)
    requires checked_pair { CheckedPair a.now b.now n ka kb }
    requires kb_in_bounds { 40 + n + 12 * overflow_count n (result_of op a.now b.now n ka kb) ≤ length out.old }
    ensures { out.new ≡ parts_put n (result_of op a.now b.now n ka kb) out.old }
{
    let from = HEADER_LEN + n;
    match op {
        MergeOp::Minimum => {
            put_primary(out, ByteOp::Min, a, b, n, ka, kb);
            put_led(out, SlotOp::Minimum, a, b, n, ka, kb, from);
        }
        MergeOp::Maximum => {
            put_primary(out, ByteOp::Max, a, b, n, ka, kb);
            put_joint(out, a, b, n, ka, kb, from);
        }
        MergeOp::Difference => {
            put_primary(out, ByteOp::Sub, a, b, n, ka, kb);
            settle_led(out, SlotOp::Difference, a, b, n, ka, kb);
        }
    }
}

// Writes the file of the result, or refuses with 12.
pub fn combine_into(
    out: &mut [u8],
    op: MergeOp,
    a: &[u8],
    b: &[u8],
    n: usize,
    ka: usize,
    kb: usize,
) -> Result<Summary, Refusal>
    requires { CheckedPair a.now b.now n ka kb }
    ensures answer { result ≡ combined_into op a.now b.now n ka kb (length out.old) }
    ensures buffer { out.new ≡ combined_buffer op a.now b.now n ka kb out.old }
{
    let k = count_overflow(op, a, b, n, ka, kb);
    let counts = begin(out, n, k)?;
    put_parts(out, op, a, b, n, ka, kb);
    finish(out, n, k);
    Ok(summary_of(out, counts))
}
