// The header's section "Masks".
ghost use Rattle.std.specs.Prelude.{◌≡◌, length};
ghost use Rattle.pciv_format.specs.Mask.{threshold_outcome, threshold_words, near_mask_outcome, near_mask_words};
ghost use Rattle.pciv_format.specs.Mask.{combine_outcome, combine_words, complement_outcome, complement_words};
ghost use Rattle.pciv_format.specs.Mask.{set_bits_outcome, map_of_mask_outcome, map_of_mask_buffer};
ghost use Rattle.pciv_format.specs.Mask.{keep_masked_outcome, keep_masked_buffer, increment_masked_outcome};
ghost use Rattle.pciv_format.specs.Mask.{increment_masked_buffer};
ghost use Rattle.pciv_format.specs.declared.Comparison.TheVariants.{Below, AtMost, Above, AtLeast};
ghost use Rattle.pciv_format.specs.declared.MaskOp.TheVariants.{And, Or, Xor};
ghost use Rattle.pciv_c_cells.specs.Cells.{ToldNumber, ToldFile};

use pciv_c_cells::{tell_file, tell_value};
use pciv_format::Comparison;
use pciv_mask_apply::{increment_masked, keep_masked, map_of_mask};
use pciv_mask_logic::{and, complement, or, set_bits, xor};
use pciv_mask_threshold::{near_mask, threshold};

// ---- masks of a map

#[unsafe(no_mangle)]
pub extern "C" fn pciv_mask_below(
    file: &[u8],
    t: u32,
    out: &mut [u64],
    count: &mut usize,
    refusal: &mut [usize; 3],
) -> usize
    ensures told { ToldNumber (threshold_outcome Below file.now t (length out.old))
        result count.old count.new refusal.new }
    ensures words { out.new ≡ threshold_words Below file.now t out.old }
{
    tell_value(threshold(file, Comparison::Below, t, out), count, refusal)
}

#[unsafe(no_mangle)]
pub extern "C" fn pciv_mask_at_most(
    file: &[u8],
    t: u32,
    out: &mut [u64],
    count: &mut usize,
    refusal: &mut [usize; 3],
) -> usize
    ensures told { ToldNumber (threshold_outcome AtMost file.now t (length out.old))
        result count.old count.new refusal.new }
    ensures words { out.new ≡ threshold_words AtMost file.now t out.old }
{
    tell_value(threshold(file, Comparison::AtMost, t, out), count, refusal)
}

#[unsafe(no_mangle)]
pub extern "C" fn pciv_mask_above(
    file: &[u8],
    t: u32,
    out: &mut [u64],
    count: &mut usize,
    refusal: &mut [usize; 3],
) -> usize
    ensures told { ToldNumber (threshold_outcome Above file.now t (length out.old))
        result count.old count.new refusal.new }
    ensures words { out.new ≡ threshold_words Above file.now t out.old }
{
    tell_value(threshold(file, Comparison::Above, t, out), count, refusal)
}

#[unsafe(no_mangle)]
pub extern "C" fn pciv_mask_at_least(
    file: &[u8],
    t: u32,
    out: &mut [u64],
    count: &mut usize,
    refusal: &mut [usize; 3],
) -> usize
    ensures told { ToldNumber (threshold_outcome AtLeast file.now t (length out.old))
        result count.old count.new refusal.new }
    ensures words { out.new ≡ threshold_words AtLeast file.now t out.old }
{
    tell_value(threshold(file, Comparison::AtLeast, t, out), count, refusal)
}

#[unsafe(no_mangle)]
pub extern "C" fn pciv_near_mask(
    file: &[u8],
    t: u32,
    out: &mut [u64],
    count: &mut usize,
    refusal: &mut [usize; 3],
) -> usize
    ensures told { ToldNumber (near_mask_outcome file.now t (length out.old))
        result count.old count.new refusal.new }
    ensures words { out.new ≡ near_mask_words file.now t out.old }
{
    tell_value(near_mask(file, t, out), count, refusal)
}

// ---- masks of masks

#[unsafe(no_mangle)]
pub extern "C" fn pciv_mask_and(
    n: usize,
    a: &[u64],
    b: &[u64],
    out: &mut [u64],
    count: &mut usize,
    refusal: &mut [usize; 3],
) -> usize
    ensures told { ToldNumber
        (combine_outcome And n a.now b.now (length out.old))
        result count.old count.new refusal.new }
    ensures words { out.new
        ≡ combine_words And n a.now b.now out.old }
{
    tell_value(and(n, a, b, out), count, refusal)
}

#[unsafe(no_mangle)]
pub extern "C" fn pciv_mask_or(
    n: usize,
    a: &[u64],
    b: &[u64],
    out: &mut [u64],
    count: &mut usize,
    refusal: &mut [usize; 3],
) -> usize
    ensures told { ToldNumber
        (combine_outcome Or n a.now b.now (length out.old))
        result count.old count.new refusal.new }
    ensures words { out.new
        ≡ combine_words Or n a.now b.now out.old }
{
    tell_value(or(n, a, b, out), count, refusal)
}

#[unsafe(no_mangle)]
pub extern "C" fn pciv_mask_xor(
    n: usize,
    a: &[u64],
    b: &[u64],
    out: &mut [u64],
    count: &mut usize,
    refusal: &mut [usize; 3],
) -> usize
    ensures told { ToldNumber
        (combine_outcome Xor n a.now b.now (length out.old))
        result count.old count.new refusal.new }
    ensures words { out.new
        ≡ combine_words Xor n a.now b.now out.old }
{
    tell_value(xor(n, a, b, out), count, refusal)
}

#[unsafe(no_mangle)]
pub extern "C" fn pciv_mask_not(
    n: usize,
    mask: &[u64],
    out: &mut [u64],
    count: &mut usize,
    refusal: &mut [usize; 3],
) -> usize
    ensures told { ToldNumber (complement_outcome n mask.now (length out.old))
        result count.old count.new refusal.new }
    ensures words { out.new ≡ complement_words n mask.now out.old }
{
    tell_value(complement(n, mask, out), count, refusal)
}

#[unsafe(no_mangle)]
pub extern "C" fn pciv_set_bits(
    n: usize,
    mask: &[u64],
    count: &mut usize,
    refusal: &mut [usize; 3],
) -> usize
    ensures told { ToldNumber (set_bits_outcome n mask.now)
        result count.old count.new refusal.new }
{
    tell_value(set_bits(n, mask), count, refusal)
}

// ---- files from masks

#[unsafe(no_mangle)]
pub extern "C" fn pciv_map_of_mask(
    n: usize,
    mask: &[u64],
    out: &mut [u8],
    summary: &mut [usize; 6],
    refusal: &mut [usize; 3],
) -> usize
    ensures told { ToldFile (map_of_mask_outcome n mask.now (length out.old))
        result summary.old summary.new refusal.new }
    ensures buffer { out.new ≡ map_of_mask_buffer n mask.now out.old }
{
    tell_file(map_of_mask(n, mask, out), summary, refusal)
}

#[unsafe(no_mangle)]
pub extern "C" fn pciv_keep_masked(
    file: &[u8],
    mask: &[u64],
    out: &mut [u8],
    summary: &mut [usize; 6],
    refusal: &mut [usize; 3],
) -> usize
    ensures told { ToldFile
        (keep_masked_outcome file.now mask.now (length out.old))
        result summary.old summary.new refusal.new }
    ensures buffer { out.new
        ≡ keep_masked_buffer file.now mask.now out.old }
{
    tell_file(keep_masked(file, mask, out), summary, refusal)
}

#[unsafe(no_mangle)]
pub extern "C" fn pciv_increment_masked(
    file: &[u8],
    mask: &[u64],
    out: &mut [u8],
    summary: &mut [usize; 6],
    refusal: &mut [usize; 3],
) -> usize
    ensures told { ToldFile
        (increment_masked_outcome file.now mask.now (length out.old))
        result summary.old summary.new refusal.new }
    ensures buffer { out.new
        ≡ increment_masked_buffer file.now mask.now out.old }
{
    tell_file(increment_masked(file, mask, out), summary, refusal)
}
