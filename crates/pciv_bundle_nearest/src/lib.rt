// The nearest distance of every slot over the frames of a bundle (docs/FORMAT.md, "Bundles"): first over the primary bytes,
// where a byte 255 stands for the largest distance, then the overflow entries of each frame. Definitions are in
// specs/Nearest.antt.
#![tactic(auto)]

mod blocks;
mod entries;

ghost use Rattle.std.specs.Prelude.{◌≡◌, ◌≤◌, length};
ghost use Rattle.std.proofs.lemmas.List.Edits.{sets};
ghost use Rattle.pciv_bundle_records.specs.Records.{frames, PlacedFrames};
ghost use Rattle.pciv_bundle_frames.specs.Frames.{CheckedFrames};
ghost use Rattle.pciv_bundle_nearest.specs.Nearest.{nearest_list};

use crate::blocks::nearest_bytes;
use crate::entries::lower_all;
use pciv_bundle_records::{MAX_FRAMES, Span};

// The nearest distance of each of n slots, to the front of the caller's list.
pub fn nearest_into(
    bundle: &[u8],
    places: [Span; MAX_FRAMES],
    count: usize,
    n: usize,
    out: &mut [u32],
)
    requires count_bound { (count ≤ 8) × (count ≡ length (frames bundle.now)) × (n ≤ length out.old) }
    requires placed_frames { PlacedFrames bundle.now places × CheckedFrames (frames bundle.now) n }
    ensures { out.new ≡ sets out.old 0 (nearest_list (frames bundle.now) n) }
{
    nearest_bytes(bundle, places, count, n, out);
    lower_all(bundle, places, count, n, out);
}
