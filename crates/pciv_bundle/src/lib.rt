// Burst bundles: one to eight frames of one scene in one file (docs/FORMAT.md, "Bundles"). Every routine checks all records
// and frames that it uses before anything else. A refused call changes nothing, and what follows a result stays as it was.
#![tactic(auto)]

pub mod write;

ghost use Rattle.std.specs.Prelude.{◌≡◌, length};
ghost use Rattle.pciv_bundle_records.specs.Records.{IsSplit};
ghost use Rattle.pciv_bundle.specs.Bundle.{bundle_outcome, row_outcome, row_answer, nearest_outcome, nearest_buffer};

use pciv_bundle_frames::{check_frames, row_of};
use pciv_bundle_nearest::nearest_into;
use pciv_bundle_records::{BundleCounts, MAX_FRAMES, Split, split_records};
use pciv_format::{Refusal, RefusalKind};
use pciv_layout::refusals::refuse;

// The answer of a row: the distances at a slot by frame, zeros after a refusal.
#[derive(Clone, Copy)]
pub struct RowAnswer {
    pub verdict: Result<(), Refusal>,
    pub distances: [u32; MAX_FRAMES],
}

// The counts of a bundle and the places of its frames, which are sound files with as many slots, or why it is none.
// Refusals: 14, then 1 to 8 with the frame's number as map, then 10 with a frame's number as place.
fn check_bundle(bundle: &[u8]) -> Result<Split, Refusal>
    ensures { IsSplit bundle.now (bundle_outcome bundle.now) result }
{
    let split = split_records(bundle)?;
    let counts = split.counts;
    check_frames(bundle, split.places, counts.frames, counts.slots)?;
    Ok(split)
}

// How many slots and frames a bundle has. Refusals: 14, then each frame's 1 to 8, then 10.
pub fn read(bundle: &[u8]) -> Result<BundleCounts, Refusal>
    ensures answer { result ≡ bundle_outcome bundle.now }
{
    let split = check_bundle(bundle)?;
    Ok(split.counts)
}

// The distances at a slot by frame, or why there are none.
fn row_at(bundle: &[u8], slot: usize) -> Result<[u32; MAX_FRAMES], Refusal>
    ensures { result ≡ row_outcome bundle.now slot }
{
    let split = check_bundle(bundle)?;
    let counts = split.counts;
    if counts.slots <= slot {
        return refuse(RefusalKind::SlotOutOfRange, 0, 0);
    }
    Ok(row_of(bundle, split.places, counts.frames, counts.slots, slot))
}

// The distances at a slot by frame, 0 for frames that are absent, and all 0 after a refusal. Refusals: those of `read`,
// then 9.
pub fn row(bundle: &[u8], slot: usize) -> RowAnswer
    ensures answer { result ≡ row_answer (row_outcome bundle.now slot) }
{
    match row_at(bundle, slot) {
        Ok(distances) => RowAnswer {
            verdict: Ok(()),
            distances,
        },
        Err(why) => RowAnswer {
            verdict: Err(why),
            distances: [0; MAX_FRAMES],
        },
    }
}

// For each slot the least distance over the frames that is not 0, and 0 where all are, to the front of the caller's list;
// answers how many. Refusals: those of `read`, then 12.
pub fn nearest(bundle: &[u8], out: &mut [u32]) -> Result<usize, Refusal>
    ensures answer { result ≡ nearest_outcome bundle.now (length out.old) }
    ensures buffer { out.new ≡ nearest_buffer bundle.now out.old }
{
    let split = check_bundle(bundle)?;
    let counts = split.counts;
    let n = counts.slots;
    if out.len() < n {
        return refuse(RefusalKind::BufferTooSmall, 0, 0);
    }
    nearest_into(bundle, split.places, counts.frames, n, out);
    Ok(n)
}
