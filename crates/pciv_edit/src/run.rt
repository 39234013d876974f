// A run of edits in one call (docs/FORMAT.md, "A run of edits"): the file is checked once, and each edit gets the
// buffer as the one before left it. What the run answers and leaves is defined in pciv_format, specs/Edit.antt.
ghost use Rattle.std.specs.Prelude.{◌≡◌, ◌+◌, ◌*◌, ◌≤◌, length};
ghost use Rattle.std.proofs.lemmas.List.Edits.{sets};
ghost use Rattle.pciv_format.specs.Edit.{edit_outcome, edit_moved, edit_buffer, edit_run, edit_outcomes, edit_moves};
ghost use Rattle.pciv_format.specs.Edit.{answer_len, cells_of, answer_cells, all_cells, edits_of, edit_list_outcome};
ghost use Rattle.pciv_format.specs.Edit.{edit_list_buffer, edit_list_answers};
ghost use Rattle.pciv_slot.specs.Change.{SummedMap};

use pciv_check::check_buffer;
use pciv_format::{ANSWER_LEN, Refusal, RefusalKind, Summary};
use pciv_layout::refusals::refuse;
use pciv_slot::edit_checked;

// What is known of the map between two edits: its overflow entries, and the sum of its distances.
#[derive(Clone, Copy)]
struct Carried {
    k: usize,
    sum: usize,
}

// Writes the numbers of one answer: a refusal's three, a summary, and the number of entries moved.
fn put_cells(answers: &mut [usize], at: usize, why: [usize; 3], s: Summary, moved: usize)
    requires { at + answer_len ≤ length answers.old }
    ensures { answers.new ≡ sets answers.old at (cells_of why s moved) }
{
    let cells = [
        why[0], why[1], why[2], s.n, s.k, s.m, s.step, s.len, s.sum, moved,
    ];
    for j in 0..ANSWER_LEN {
        answers[at + j] = cells[j];
    }
}

// One edit of a checked map; its answer goes to the caller's list. Answers what the next edit has to know.
#[tactic(auto, unfolding(pciv_format::specs::Edit::answer_cells, pciv_format::specs::Edit::edit_buffer))]
fn edit_next(
    buffer: &mut [u8],
    answers: &mut [usize],
    at: usize,
    n: usize,
    k: usize,
    sum: usize,
    slot: usize,
    distance: u32,
) -> Carried
    requires summed_map { SummedMap buffer.old n k sum }
    requires answer_len_in_bounds { at + answer_len ≤ length answers.old }
    ensures map { SummedMap buffer.new n result.k result.sum }
    ensures buffer { buffer.new ≡ edit_buffer buffer.old (record { slot = slot; distance = distance }) }
    ensures answers { answers.new ≡ sets answers.old at (answer_cells (edit_outcome buffer.old (record { slot = slot; distance = distance }))
        (edit_moved buffer.old (record { slot = slot; distance = distance }))) }
{
    let edited = edit_checked(buffer, n, k, sum, slot, distance);
    let moved = edited.moved;
    match edited.outcome {
        Err(r) => {
            let why = [usize::from(r.kind), r.map, r.place];
            let no_summary = Summary {
                n: 0,
                k: 0,
                m: 0,
                step: 0,
                len: 0,
                sum: 0,
            };
            put_cells(answers, at, why, no_summary, moved);
            Carried { k, sum }
        }
        Ok(s) => {
            put_cells(answers, at, [0, 0, 0], s, moved);
            Carried { k: s.k, sum: s.sum }
        }
    }
}

// All edits of two lists of one length, on a checked map. A refused edit does not end the run.
fn edit_all(
    buffer: &mut [u8],
    answers: &mut [usize],
    n: usize,
    k: usize,
    sum: usize,
    slots: &[usize],
    distances: &[u32],
)
    requires summed_map { SummedMap buffer.old n k sum }
    requires slots_len { length slots.now ≡ length distances.now }
    requires slots_in_bounds { answer_len * length slots.now ≤ length answers.old }
    ensures buffer { buffer.new ≡ edit_run buffer.old (edits_of slots.now distances.now) }
    ensures answers { answers.new ≡ sets answers.old 0 (all_cells (edit_outcomes buffer.old (edits_of slots.now distances.now))
        (edit_moves buffer.old (edits_of slots.now distances.now))) }
{
    let mut held = Carried { k, sum };
    for i in 0..slots.len() {
        held = edit_next(
            buffer,
            answers,
            ANSWER_LEN * i,
            n,
            held.k,
            held.sum,
            slots[i],
            distances[i],
        );
    }
}

// Makes a run of edits on the file at the front of the buffer: edit j sets slot `slots[j]` to `distances[j]`.
// Its answer is ANSWER_LEN numbers from `answers[ANSWER_LEN * j]` on: refusal number, map and place, 0 where it is
// made; then n, k, m, step, length and sum of the new file, and how many overflow entries the edit moved, all 0 where it
// is refused. A refused edit changes no byte, and the run goes on. Answers how many edits.
// Refusals of the run: 1 to 8, with map 1; then 9 where the lists differ in length, with the least position that has
// no edit; then 12 where `answers` is too short. A refused run changes nothing. The 9 for lists of unequal length is
// chosen here: the format's source has no such case.
#[tactic(auto, using(crate::proofs::EditListLaws::is_map), unfolding(pciv_format::specs::Edit::edit_list_outcome, pciv_format::specs::Edit::edit_list_buffer, pciv_format::specs::Edit::edit_list_answers))]
pub fn edit_list(
    buffer: &mut [u8],
    slots: &[usize],
    distances: &[u32],
    answers: &mut [usize],
) -> Result<usize, Refusal>
    ensures answer { result ≡ edit_list_outcome buffer.old slots.now distances.now (length answers.old) }
    ensures buffer { buffer.new ≡ edit_list_buffer buffer.old slots.now distances.now (length answers.old) }
    ensures answers { answers.new ≡ edit_list_answers buffer.old slots.now distances.now answers.old }
{
    let summary = check_buffer(buffer)?;
    if slots.len() < distances.len() {
        return refuse(RefusalKind::SlotOutOfRange, 0, slots.len());
    }
    if distances.len() < slots.len() {
        return refuse(RefusalKind::SlotOutOfRange, 0, distances.len());
    }
    if answers.len() / ANSWER_LEN < slots.len() {
        return refuse(RefusalKind::BufferTooSmall, 0, 0);
    }
    edit_all(
        buffer,
        answers,
        summary.n,
        summary.k,
        summary.sum,
        slots,
        distances,
    );
    Ok(slots.len())
}
