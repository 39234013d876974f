// Arithmetic on maps, slot by slot (docs/FORMAT.md, "Arithmetic"): minimum, maximum, sum and difference of two maps and a
// shift of one, written as a file to the front of the caller's buffer; the signed difference of two, as a list.
// Refusals 1 to 8 of two maps are those of the first, then those of the second. A refused call changes nothing, and what
// stands behind the result stays as it was.
#![tactic(auto)]

ghost use Rattle.std.specs.Prelude.{◌≡◌, length};
ghost use Rattle.pciv_format.specs.Arith.{combine_maps_outcome, combine_maps_buffer, shift_outcome, shift_buffer};
ghost use Rattle.pciv_format.specs.Arith.{signed_difference_outcome, signed_difference_list};
ghost use Rattle.pciv_format.specs.declared.SlotOp.TheVariants.{Minimum, Maximum, Sum, Difference};
ghost use Rattle.pciv_arith_merge.specs.Merge.{slot_op_of};
ghost use Rattle.pciv_arith.specs.Direction.{direction_of};

use pciv_arith_add::added_into;
use pciv_arith_add::addend::Addend;
use pciv_arith_change::differences_into;
use pciv_arith_lower::lowered_into;
use pciv_arith_merge::combine::{MergeOp, combine_into};
use pciv_check::check_counts;
use pciv_check::pair::check_pair;
use pciv_format::{Refusal, RefusalKind, Summary};
use pciv_layout::refusals::refuse;

// Checks both maps, and writes the file of the operation on them.
fn combine(op: MergeOp, a: &[u8], b: &[u8], out: &mut [u8]) -> Result<Summary, Refusal>
    ensures answer { result ≡ combine_maps_outcome (slot_op_of op) a.now b.now (length out.old) }
    ensures buffer { out.new ≡ combine_maps_buffer (slot_op_of op) a.now b.now out.old }
{
    let pair = check_pair(a, b)?;
    combine_into(out, op, a, b, pair.n, pair.ka, pair.kb)
}

// The smaller distance of each slot. Refusals: 1 to 8, then 10, then 12.
pub fn minimum(a: &[u8], b: &[u8], out: &mut [u8]) -> Result<Summary, Refusal>
    ensures answer { result ≡ combine_maps_outcome Minimum a.now b.now (length out.old) }
    ensures buffer { out.new ≡ combine_maps_buffer Minimum a.now b.now out.old }
{
    combine(MergeOp::Minimum, a, b, out)
}

// The larger distance of each slot. Refusals: 1 to 8, then 10, then 12.
pub fn maximum(a: &[u8], b: &[u8], out: &mut [u8]) -> Result<Summary, Refusal>
    ensures answer { result ≡ combine_maps_outcome Maximum a.now b.now (length out.old) }
    ensures buffer { out.new ≡ combine_maps_buffer Maximum a.now b.now out.old }
{
    combine(MergeOp::Maximum, a, b, out)
}

// The sum of the two distances of each slot. Refusals: 1 to 8, then 10, then 11 with the least slot whose sum is no
// distance, then 12.
pub fn sum_maps(a: &[u8], b: &[u8], out: &mut [u8]) -> Result<Summary, Refusal>
    ensures answer { result ≡ combine_maps_outcome Sum a.now b.now (length out.old) }
    ensures buffer { out.new ≡ combine_maps_buffer Sum a.now b.now out.old }
{
    let pair = check_pair(a, b)?;
    added_into(Addend::Map, a, b, pair.n, pair.ka, pair.kb, out)
}

// The first distance of each slot less the second, at least 0. Refusals: 1 to 8, then 10, then 12.
pub fn difference(a: &[u8], b: &[u8], out: &mut [u8]) -> Result<Summary, Refusal>
    ensures answer { result ≡ combine_maps_outcome Difference a.now b.now (length out.old) }
    ensures buffer { out.new ≡ combine_maps_buffer Difference a.now b.now out.old }
{
    combine(MergeOp::Difference, a, b, out)
}

// Which way, and how far.
#[derive(Clone, Copy)]
enum Direction {
    Down(u32),
    Up(u32),
}

fn which_way(by: i32) -> Direction
    ensures { result ≡ direction_of by }
{
    let is_down = by < 0;
    if is_down {
        return Direction::Down(by.unsigned_abs());
    }
    Direction::Up(by.unsigned_abs())
}

// Each non-zero distance with `by` added, or 1 where that is 0 or below; a zero distance stays. Refusals: 1 to 8, then 11
// with the least slot whose result is no distance, then 12.
pub fn shift(file: &[u8], by: i32, out: &mut [u8]) -> Result<Summary, Refusal>
    ensures answer { result ≡ shift_outcome file.now by (length out.old) }
    ensures buffer { out.new ≡ shift_buffer file.now by out.old }
{
    let counts = check_counts(file, 1)?;
    let n = counts.n;
    let k = counts.k;
    match which_way(by) {
        Direction::Down(m) => lowered_into(file, n, k, m, out),
        Direction::Up(m) => added_into(Addend::Number(m), file, file, n, k, k, out),
    }
}

// The exact b - a of each slot, to the front of the caller's list; answers how many. Refusals: 1 to 8, then 10, then 12.
pub fn signed_difference(a: &[u8], b: &[u8], out: &mut [i64]) -> Result<usize, Refusal>
    ensures answer { result ≡ signed_difference_outcome a.now b.now (length out.old) }
    ensures list { out.new ≡ signed_difference_list a.now b.now out.old }
{
    let pair = check_pair(a, b)?;
    let n = pair.n;
    if out.len() < n {
        return refuse(RefusalKind::BufferTooSmall, 0, 0);
    }
    differences_into(a, b, n, pair.ka, pair.kb, out);
    Ok(n)
}
