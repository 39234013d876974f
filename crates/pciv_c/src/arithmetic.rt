// The header's section "Arithmetic".
ghost use Rattle.std.specs.Prelude.{◌≡◌, length};
ghost use Rattle.pciv_format.specs.Arith.{combine_maps_outcome, combine_maps_buffer, shift_outcome, shift_buffer};
ghost use Rattle.pciv_format.specs.Arith.{signed_difference_outcome, signed_difference_list};
ghost use Rattle.pciv_format.specs.declared.SlotOp.TheVariants.{Minimum, Maximum, Sum, Difference};
ghost use Rattle.pciv_c_cells.specs.Cells.{ToldNumber, ToldFile};

use pciv_arith::{difference, maximum, minimum, shift, signed_difference, sum_maps};
use pciv_c_cells::{tell_file, tell_value};

#[unsafe(no_mangle)]
pub extern "C" fn pciv_minimum(
    a: &[u8],
    b: &[u8],
    out: &mut [u8],
    summary: &mut [usize; 6],
    refusal: &mut [usize; 3],
) -> usize
    ensures told { ToldFile
        (combine_maps_outcome Minimum a.now b.now (length out.old))
        result summary.old summary.new refusal.new }
    ensures buffer { out.new
        ≡ combine_maps_buffer Minimum a.now b.now out.old }
{
    tell_file(minimum(a, b, out), summary, refusal)
}

#[unsafe(no_mangle)]
pub extern "C" fn pciv_maximum(
    a: &[u8],
    b: &[u8],
    out: &mut [u8],
    summary: &mut [usize; 6],
    refusal: &mut [usize; 3],
) -> usize
    ensures told { ToldFile
        (combine_maps_outcome Maximum a.now b.now (length out.old))
        result summary.old summary.new refusal.new }
    ensures buffer { out.new
        ≡ combine_maps_buffer Maximum a.now b.now out.old }
{
    tell_file(maximum(a, b, out), summary, refusal)
}

#[unsafe(no_mangle)]
pub extern "C" fn pciv_sum_maps(
    a: &[u8],
    b: &[u8],
    out: &mut [u8],
    summary: &mut [usize; 6],
    refusal: &mut [usize; 3],
) -> usize
    ensures told { ToldFile
        (combine_maps_outcome Sum a.now b.now (length out.old))
        result summary.old summary.new refusal.new }
    ensures buffer { out.new
        ≡ combine_maps_buffer Sum a.now b.now out.old }
{
    tell_file(sum_maps(a, b, out), summary, refusal)
}

#[unsafe(no_mangle)]
pub extern "C" fn pciv_difference(
    a: &[u8],
    b: &[u8],
    out: &mut [u8],
    summary: &mut [usize; 6],
    refusal: &mut [usize; 3],
) -> usize
    ensures told { ToldFile
        (combine_maps_outcome Difference a.now b.now (length out.old))
        result summary.old summary.new refusal.new }
    ensures buffer { out.new
        ≡ combine_maps_buffer Difference a.now b.now out.old }
{
    tell_file(difference(a, b, out), summary, refusal)
}

#[unsafe(no_mangle)]
pub extern "C" fn pciv_shift(
    file: &[u8],
    by: i32,
    out: &mut [u8],
    summary: &mut [usize; 6],
    refusal: &mut [usize; 3],
) -> usize
    ensures told { ToldFile (shift_outcome file.now by (length out.old))
        result summary.old summary.new refusal.new }
    ensures buffer { out.new ≡ shift_buffer file.now by out.old }
{
    tell_file(shift(file, by, out), summary, refusal)
}

#[unsafe(no_mangle)]
pub extern "C" fn pciv_signed_difference(
    a: &[u8],
    b: &[u8],
    out: &mut [i64],
    count: &mut usize,
    refusal: &mut [usize; 3],
) -> usize
    ensures told { ToldNumber
        (signed_difference_outcome a.now b.now (length out.old))
        result count.old count.new refusal.new }
    ensures list { out.new
        ≡ signed_difference_list a.now b.now out.old }
{
    tell_value(signed_difference(a, b, out), count, refusal)
}
