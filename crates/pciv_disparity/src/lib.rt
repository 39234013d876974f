// Maps from disparity frames (docs/FORMAT.md, "Disparity frames"): a table of distances, filled once for a device, and the
// file that it makes of a frame. A refused call changes no byte of a buffer, and what follows a result stays as it was.
#![tactic(auto)]

pub mod front;

ghost use Rattle.std.specs.Prelude.{◌≡◌, ◌+◌, ◌*◌, ◌≤◌, length};
ghost use Rattle.std.proofs.lemmas.List.Edits.{sets};
ghost use Rattle.pciv_format.specs.Layout.{max_slots, overflow_count, overflow_part};
ghost use Rattle.pciv_build.specs.Slots.{HoldsPrimary};
ghost use Rattle.pciv_disparity.specs.Disparity.{disparity_distance, table_answer, frame_distance};
ghost use Rattle.pciv_disparity.specs.Disparity.{frame_outcome, frame_buffer};

use crate::front::{primary_bytes, put_front};
use pciv_build::slots::put_slots;
use pciv_build::{finish, put_entry};
use pciv_bytes::little_endian::get64;
use pciv_format::{HEADER_LEN, MAX_SLOTS, Refusal, RefusalKind, Summary};
use pciv_layout::refusals::refuse;
use pciv_map::totals::summary_of;

// The answer of `fill_table`: the distance of each disparity, zeros after a refusal.
#[derive(Clone, Copy)]
pub struct TableAnswer {
    pub verdict: Result<(), Refusal>,
    pub table: [u32; 256],
}

// The distance of a disparity.
fn distance_of(constant: u32, d: u32) -> u32
    ensures { result ≡ disparity_distance constant d }
{
    if d == 0 {
        return 0;
    }
    (constant / d).max(1)
}

// The disparity table of a device constant. Refusal 19 for the constant 0, with a table of zeros.
pub fn fill_table(constant: u32) -> TableAnswer
    ensures answer { result ≡ table_answer constant }
{
    let mut table: [u32; 256] = [0; 256];
    if constant == 0 {
        return TableAnswer {
            verdict: refuse(RefusalKind::ZeroConstant, 0, 0),
            table,
        };
    }
    for d in 0..256 {
        table[d] = distance_of(constant, d as u32);
    }
    TableAnswer {
        verdict: Ok(()),
        table,
    }
}

// Writes all overflow entries, k of them, where the primary bytes stand in the buffer: first their slots, then at each
// slot the distance.
fn put_entries(out: &mut [u8], frame: &[u8], table: &[u32; 256], k: usize)
    requires frame_len_bound { length frame.now ≤ max_slots }
    requires k_value { k ≡ overflow_count (length frame.now) (frame_distance table.now frame.now) }
    requires k_in_bounds { 40 + length frame.now + 12 * k ≤ length out.old }
    requires holds_primary { HoldsPrimary (length frame.now) (frame_distance table.now frame.now) out.old }
    ensures { out.new ≡ sets out.old (40 + length frame.now)
        (overflow_part (length frame.now) (frame_distance table.now frame.now)) }
{
    let n = frame.len();
    put_slots(out, n);
    let mut place = HEADER_LEN + n;
    for _ in 0..k {
        let slot = get64(out, place);
        place = put_entry(out, place, slot, table[frame[slot] as usize]);
    }
}

// Writes the map of a frame by a table of distances to the front of the caller's buffer. Refusals: 3 with map 1, then 12.
// A refused call changes no byte, and bytes past the file stay as they were.
pub fn map_of_frame(frame: &[u8], table: [u32; 256], out: &mut [u8]) -> Result<Summary, Refusal>
    ensures answer { result ≡ frame_outcome table frame.now (length out.old) }
    ensures buffer { out.new ≡ frame_buffer table frame.now out.old }
{
    let n = frame.len();
    if MAX_SLOTS < n {
        return refuse(RefusalKind::TooManySlots, 1, 0);
    }
    let bytes = primary_bytes(&table);
    let counts = put_front(out, frame, &bytes)?;
    let k = counts.k;
    put_entries(out, frame, &table, k);
    finish(out, n, k);
    Ok(summary_of(out, counts))
}
