// The editor (docs/FORMAT.md, "The editor"): one slot of the file at the front of the caller's buffer gets a new
// distance, in place. What it answers and leaves is defined in pciv_format, specs/Edit.antt.
#![tactic(auto)]

pub mod run;

ghost use Rattle.std.specs.Prelude.{◌≡◌};
ghost use Rattle.pciv_format.specs.Edit.{edit_outcome, edit_moved, edit_answer, edit_buffer};

use pciv_check::check_buffer;
use pciv_format::EditAnswer;
use pciv_slot::edit_checked;

// Sets the slot to the distance, and answers the new file's summary, its sum included, and how many overflow entries of
// other slots have another number now: 0 unless the slot moves into or out of overflow, else the old entries with a larger
// slot.
// Refusals: 1 to 8, with map 1 and 5 only where the buffer is shorter than the file; then 9 and 12. Only the new file's
// length is compared with the buffer. A refused call changes no byte and moves no entry.
// Where the file gets shorter, what it leaves becomes 0; bytes past both files stay.
#[tactic(auto, unfolding(pciv_format::specs::Edit::edit_outcome, pciv_format::specs::Edit::edit_moved, pciv_format::specs::Edit::edit_buffer))]
pub fn edit(buffer: &mut [u8], slot: usize, distance: u32) -> EditAnswer
    ensures answer { result ≡ edit_answer (edit_outcome buffer.old (record { slot = slot; distance = distance }))
        (edit_moved buffer.old (record { slot = slot; distance = distance })) }
    ensures buffer { buffer.new ≡ edit_buffer buffer.old (record { slot = slot; distance = distance }) }
{
    match check_buffer(buffer) {
        Err(r) => EditAnswer {
            outcome: Err(r),
            moved: 0,
        },
        Ok(s) => edit_checked(buffer, s.n, s.k, s.sum, slot, distance),
    }
}
