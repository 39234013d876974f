// The header's section "Editing".
ghost use Rattle.std.specs.Prelude.{◌≡◌, length};
ghost use Rattle.pciv_format.specs.Edit.{edit_outcome, edit_moved, edit_buffer, edit_list_outcome, edit_list_buffer};
ghost use Rattle.pciv_format.specs.Edit.{edit_list_answers};
ghost use Rattle.pciv_c_cells.specs.Cells.{ToldNumber, ToldFile};

use pciv_c_cells::{tell_file, tell_value};
use pciv_edit::edit;
use pciv_edit::run::edit_list;

// `*moved` is written after a refusal too, as 0.
#[unsafe(no_mangle)]
pub extern "C" fn pciv_edit(
    buffer: &mut [u8],
    slot: usize,
    distance: u32,
    summary: &mut [usize; 6],
    moved: &mut usize,
    refusal: &mut [usize; 3],
) -> usize
    ensures told { ToldFile (edit_outcome buffer.old (record { slot = slot; distance = distance }))
        result summary.old summary.new refusal.new }
    ensures moved { moved.new
        ≡ edit_moved buffer.old (record { slot = slot; distance = distance }) }
    ensures buffer { buffer.new
        ≡ edit_buffer buffer.old (record { slot = slot; distance = distance }) }
{
    let edited = edit(buffer, slot, distance);
    let outcome = edited.outcome;
    *moved = edited.moved;
    tell_file(outcome, summary, refusal)
}

#[unsafe(no_mangle)]
pub extern "C" fn pciv_edit_list(
    buffer: &mut [u8],
    slots: &[usize],
    distances: &[u32],
    answers: &mut [usize],
    count: &mut usize,
    refusal: &mut [usize; 3],
) -> usize
    ensures told { ToldNumber
        (edit_list_outcome buffer.old slots.now
        distances.now (length answers.old))
        result count.old count.new refusal.new }
    ensures buffer { buffer.new
        ≡ edit_list_buffer buffer.old slots.now
        distances.now (length answers.old) }
    ensures answers { answers.new
        ≡ edit_list_answers buffer.old slots.now
        distances.now answers.old }
{
    tell_value(edit_list(buffer, slots, distances, answers), count, refusal)
}
