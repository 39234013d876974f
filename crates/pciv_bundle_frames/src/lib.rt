// The frames of a bundle: their check, each with its number from 1 as the map, wherever they stand, and the distances at
// one slot (docs/FORMAT.md, "Bundles"). Definitions are in specs/Frames.antt.
#![tactic(auto)]

ghost use Rattle.std.specs.Prelude.{◌≡◌, ◌≤◌, ◌<◌, map, length, take, IfSome};
ghost use Rattle.pciv_bundle_records.specs.Records.{frames, PlacedFrames};
ghost use Rattle.pciv_bundle_frames.specs.Frames.{frames_outcome, next_frame, same_slots, CheckedFrames, row_of};

use pciv_bundle_records::{MAX_FRAMES, Span, frame_at};
use pciv_bytes::little_endian::get64;
use pciv_check::check_counts;
use pciv_format::{Refusal, RefusalKind};
use pciv_layout::refusals::refuse;
use pciv_map_lookup::locate;

// The check of frame f, then the least of the frames up to it that has not n slots, if there is one, where `other` is that
// of those below.
fn check_next(
    frame: &[u8],
    f: usize,
    other: Option<usize>,
    n: usize,
) -> Result<Option<usize>, Refusal>
    requires { f < 8 }
    ensures { result ≡ next_frame n f other frame.now }
{
    let counts = check_counts(frame, f + 1)?;
    let this = (counts.n != n).then_some(f);
    Ok(other.or(this))
}

// Refusal 10 where there is a frame, of eight from 0, that has not n slots, else n.
fn same_slots(other: Option<usize>, n: usize) -> Result<usize, Refusal>
    requires { IfSome other (λ f. f < 8) }
    ensures { result ≡ same_slots n other }
{
    match other {
        Some(f) => refuse(RefusalKind::SizeMismatch, 0, f + 1),
        None => Ok(n),
    }
}

// The check of a bundle's frames, of which each has to have n slots. Refusals: 1 to 8, then 10.
pub fn check_frames(
    bundle: &[u8],
    places: [Span; MAX_FRAMES],
    count: usize,
    n: usize,
) -> Result<usize, Refusal>
    requires count_bound { (count ≤ 8) × (count ≡ length (frames bundle.now)) }
    requires placed_frames { PlacedFrames bundle.now places }
    ensures { result ≡ frames_outcome n (frames bundle.now) }
{
    let mut other = None;
    for f in 0..count {
        other = check_next(frame_at(bundle, places, f), f, other, n)?;
    }
    same_slots(other, n)
}

// The same of the first `count` of eight frames that a caller lends.
pub fn check_lent(frames: &[&[u8]; MAX_FRAMES], count: usize, n: usize) -> Result<usize, Refusal>
    requires { count ≤ 8 }
    ensures { result ≡ frames_outcome n (take count (map (λ x. x.now) frames.now)) }
{
    let mut other = None;
    for (f, frame) in frames[..count].iter().enumerate() {
        other = check_next(frame, f, other, n)?;
    }
    same_slots(other, n)
}

// The distance at a slot in each frame of a bundle, 0 where there is no frame.
pub fn row_of(
    bundle: &[u8],
    places: [Span; MAX_FRAMES],
    count: usize,
    n: usize,
    slot: usize,
) -> [u32; MAX_FRAMES]
    requires count_bound { (count ≤ 8) × (count ≡ length (frames bundle.now)) × (slot < n) }
    requires placed_frames { PlacedFrames bundle.now places × CheckedFrames (frames bundle.now) n }
    ensures { result ≡ row_of (frames bundle.now) slot }
{
    let mut row = [0; MAX_FRAMES];
    for (f, distance) in row[..count].iter_mut().enumerate() {
        let frame = frame_at(bundle, places, f);
        *distance = locate(frame, n, get64(frame, 16), slot).distance;
    }
    row
}
