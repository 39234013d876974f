// The header's section "Bundles".
ghost use Rattle.std.specs.Prelude.{◌≡◌, map, length};
ghost use Rattle.pciv_bundle.specs.Bundle.{bundle_outcome, row_outcome, nearest_outcome, nearest_buffer};
ghost use Rattle.pciv_bundle.specs.Bundle.{bundle_write_outcome, bundle_write_buffer};
ghost use Rattle.pciv_c_cells.specs.Cells.{ToldNumber, ToldCounts};

use pciv_bundle::write::write;
use pciv_bundle::{nearest, read};
use pciv_c_cells::{tell_counts, tell_row, tell_value};

#[unsafe(no_mangle)]
pub extern "C" fn pciv_bundle_read(
    bundle: &[u8],
    slots: &mut usize,
    frames: &mut usize,
    refusal: &mut [usize; 3],
) -> usize
    ensures told { ToldCounts (bundle_outcome bundle.now)
        result slots.old slots.new frames.old frames.new
        refusal.new }
{
    tell_counts(read(bundle), slots, frames, refusal)
}

#[unsafe(no_mangle)]
pub extern "C" fn pciv_bundle_row(
    bundle: &[u8],
    slot: usize,
    row: &mut [u32; 8],
    refusal: &mut [usize; 3],
) -> usize
    ensures told { ToldNumber (row_outcome bundle.now slot)
        result row.old row.new refusal.new }
{
    tell_row(pciv_bundle::row(bundle, slot), row, refusal)
}

#[unsafe(no_mangle)]
pub extern "C" fn pciv_bundle_nearest(
    bundle: &[u8],
    distances: &mut [u32],
    count: &mut usize,
    refusal: &mut [usize; 3],
) -> usize
    ensures told { ToldNumber (nearest_outcome bundle.now (length distances.old))
        result count.old count.new refusal.new }
    ensures buffer { distances.new ≡ nearest_buffer bundle.now distances.old }
{
    tell_value(nearest(bundle, distances), count, refusal)
}

#[unsafe(no_mangle)]
pub extern "C" fn pciv_bundle_write(
    frames: &[&[u8]; 8],
    count: usize,
    out: &mut [u8],
    written: &mut usize,
    refusal: &mut [usize; 3],
) -> usize
    ensures told { ToldNumber
        (bundle_write_outcome (map (λ x. x.now) frames.now) count (length out.old))
        result written.old written.new refusal.new }
    ensures buffer { out.new
        ≡ bundle_write_buffer (map (λ x. x.now) frames.now) count out.old }
{
    tell_value(write(frames, count, out), written, refusal)
}
