// The header's section "Writing".
ghost use Rattle.std.specs.Prelude.{◌≡◌, length};
ghost use Rattle.pciv_format.specs.Write.{write_outcome, write_buffer, close_outcome, close_buffer};
ghost use Rattle.pciv_close_entries.specs.Passes.{slots_of, distances_of};
ghost use Rattle.pciv_c_cells.specs.Cells.{ToldFile};

use pciv_c_cells::tell_file;
use pciv_close::close;
use pciv_close_entries::close_entries;
use pciv_format::Entry;
use pciv_write::write;

#[unsafe(no_mangle)]
pub extern "C" fn pciv_write(
    distances: &[u32],
    out: &mut [u8],
    summary: &mut [usize; 6],
    refusal: &mut [usize; 3],
) -> usize
    ensures told { ToldFile (write_outcome distances.now (length out.old))
        result summary.old summary.new refusal.new }
    ensures buffer { out.new ≡ write_buffer distances.now out.old }
{
    tell_file(write(distances, out), summary, refusal)
}

#[unsafe(no_mangle)]
pub extern "C" fn pciv_close(
    primary: &[u8],
    slots: &[usize],
    distances: &[u32],
    out: &mut [u8],
    summary: &mut [usize; 6],
    refusal: &mut [usize; 3],
) -> usize
    ensures told { ToldFile
        (close_outcome primary.now slots.now
        distances.now (length out.old))
        result summary.old summary.new refusal.new }
    ensures buffer { out.new
        ≡ close_buffer primary.now slots.now distances.now out.old }
{
    tell_file(close(primary, slots, distances, out), summary, refusal)
}

// As pciv_close, with the entries as structs.
#[unsafe(no_mangle)]
pub extern "C" fn pciv_close_entries(
    primary: &[u8],
    entries: &[Entry],
    out: &mut [u8],
    summary: &mut [usize; 6],
    refusal: &mut [usize; 3],
) -> usize
    ensures told { ToldFile
        (close_outcome primary.now (slots_of entries.now)
        (distances_of entries.now) (length out.old))
        result summary.old summary.new refusal.new }
    ensures buffer { out.new
        ≡ close_buffer primary.now (slots_of entries.now)
        (distances_of entries.now) out.old }
{
    tell_file(close_entries(primary, entries, out), summary, refusal)
}
