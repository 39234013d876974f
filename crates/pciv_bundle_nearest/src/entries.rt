// The overflow entries of all frames: each distance goes to its slot where it is the smaller. A slot whose nearest
// distance is inline has a smaller one already. Definitions are in specs/Passes.antt.
ghost use Rattle.std.specs.Prelude.{◌≡◌, ℕ, ◌≤◌, length};
ghost use mathlib.Core.List.{foldl};
ghost use Rattle.pciv_format.specs.Check.{file_parts, CheckedMap};
ghost use Rattle.pciv_bundle_records.specs.Records.{frames, PlacedFrames};
ghost use Rattle.pciv_bundle_frames.specs.Frames.{CheckedFrames};
ghost use Rattle.pciv_bundle_nearest.specs.Passes.{lowered_to, entry_step, Changed};

use pciv_bundle_records::{MAX_FRAMES, Span, frame_at};
use pciv_bytes::little_endian::get64;
use pciv_map::entries::{entry_distance, entry_slot};

// The entries of one frame.
fn lower_entries(file: &[u8], n: usize, k: usize, out: &mut [u32])
    requires checked_map { CheckedMap file.now n k }
    requires n_in_bounds { n ≤ length out.old }
    ensures { Changed (lowered_to (file_parts file.now n k)) n out.old out.new }
{
    for j in 0..k {
        let slot = entry_slot(file, n, j);
        out[slot] = out[slot].min(entry_distance(file, n, j));
    }
}

// The entries of every frame.
pub(crate) fn lower_all(
    bundle: &[u8],
    places: [Span; MAX_FRAMES],
    count: usize,
    n: usize,
    out: &mut [u32],
)
    requires count_bound { (count ≤ 8) × (count ≡ length (frames bundle.now)) × (n ≤ length out.old) }
    requires placed_frames { PlacedFrames bundle.now places × CheckedFrames (frames bundle.now) n }
    ensures { Changed (λ (i x : ℕ). foldl (entry_step n i) x (frames bundle.now)) n
        out.old out.new }
{
    for f in 0..count {
        let frame = frame_at(bundle, places, f);
        lower_entries(frame, n, get64(frame, 16), out);
    }
}
