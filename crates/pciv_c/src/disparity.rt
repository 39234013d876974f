// The header's section "Disparity frames".
ghost use Rattle.std.specs.Prelude.{◌≡◌, length};
ghost use Rattle.pciv_disparity.specs.Disparity.{disparity_table, table_outcome, frame_outcome, frame_buffer};
ghost use Rattle.pciv_c_cells.specs.Cells.{ToldFile, ToldTable};

use pciv_c_cells::{tell_file, tell_table};
use pciv_disparity::{fill_table, map_of_frame};

// `table` is written after a refusal too, with zeros.
#[unsafe(no_mangle)]
pub extern "C" fn pciv_fill_table(
    constant: u32,
    table: &mut [u32; 256],
    refusal: &mut [usize; 3],
) -> usize
    ensures told { ToldTable (table_outcome constant) (disparity_table constant)
        result table.new refusal.new }
{
    tell_table(fill_table(constant), table, refusal)
}

#[unsafe(no_mangle)]
pub extern "C" fn pciv_map_of_frame(
    frame: &[u8],
    table: &[u32; 256],
    out: &mut [u8],
    summary: &mut [usize; 6],
    refusal: &mut [usize; 3],
) -> usize
    ensures told { ToldFile
        (frame_outcome table.now frame.now (length out.old))
        result summary.old summary.new refusal.new }
    ensures buffer { out.new
        ≡ frame_buffer table.now frame.now out.old }
{
    tell_file(map_of_frame(frame, *table, out), summary, refusal)
}
