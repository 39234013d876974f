// The primary bytes of all frames, block by block: the nearest of the bytes at each slot. A byte is taken less 1, so
// that 0 becomes 255, the largest, and loses against every other byte. Definitions are in specs/Passes.antt.
ghost use Rattle.std.specs.Prelude.{◌≡◌, ℕ, ◌+◌, ◌≤◌, length};
ghost use Rattle.std.proofs.lemmas.List.Edits.{sets};
ghost use Rattle.pciv_bytes.specs.Ranges.{table};
ghost use Rattle.pciv_format.specs.Layout.{at};
ghost use Rattle.pciv_bundle_records.specs.Records.{frames, PlacedFrames};
ghost use Rattle.pciv_bundle_frames.specs.Frames.{CheckedFrames};
ghost use Rattle.pciv_bundle_nearest.specs.Passes.{lowered_byte, raised_byte, nearest_byte, Changed};

use pciv_bundle_records::{MAX_FRAMES, Span, frame_at};
use pciv_format::{HEADER_LEN, INLINE_MAX, MAX_DISTANCE};

// How many slots a block has.
const BLOCK: usize = 4096;

// The smaller of a byte and another one less 1.
#[tactic(auto, unfolding(crate::specs::Passes::lowered_byte))]
fn lowered(least: u8, byte: u8) -> u8
    ensures { result ≡ lowered_byte least byte }
{
    let less = byte.wrapping_sub(1);
    least.min(less)
}

// The distance of a byte that was taken less 1. 254 was byte 255, whose distance is in overflow: it becomes the largest one.
#[tactic(auto, unfolding(crate::specs::Passes::raised_byte))]
fn raised(least: u8) -> u32
    ensures { result ≡ raised_byte least }
{
    if least == INLINE_MAX {
        return MAX_DISTANCE;
    }
    u32::from(least.wrapping_add(1))
}

// Each byte of the block with the byte of one more frame there.
fn lower_block(least: &mut [u8; BLOCK], bytes: &[u8])
    requires { length bytes.now ≤ 4096 }
    ensures { Changed (λ (i m : ℕ). lowered_byte m (at bytes.now i)) (length bytes.now)
        least.old least.new }
{
    for i in 0..bytes.len() {
        least[i] = lowered(least[i], bytes[i]);
    }
}

// The first `len` bytes of the block as distances, from slot `start` on.
fn raise_block(least: &[u8; BLOCK], out: &mut [u32], start: usize, len: usize)
    requires { (len ≤ 4096) × (start + len ≤ length out.old) }
    ensures { out.new
        ≡ sets out.old start (table (λ (i : ℕ). raised_byte (at least.now i)) 0 len) }
{
    for i in 0..len {
        out[start + i] = raised(least[i]);
    }
}

// One block, of `len` slots from `start` on.
fn nearest_block(
    bundle: &[u8],
    places: [Span; MAX_FRAMES],
    count: usize,
    n: usize,
    start: usize,
    len: usize,
    out: &mut [u32],
)
    requires count_bound { (count ≤ 8) × (count ≡ length (frames bundle.now)) × (len ≤ 4096) × (start + len ≤ n)
        × (n ≤ length out.old) }
    requires placed_frames { PlacedFrames bundle.now places × CheckedFrames (frames bundle.now) n }
    ensures { out.new
        ≡ sets out.old start (table (nearest_byte (frames bundle.now)) start len) }
{
    let mut least = [u8::MAX; BLOCK];
    for f in 0..count {
        let frame = frame_at(bundle, places, f);
        let from = HEADER_LEN + start;
        lower_block(&mut least, &frame[from..from + len]);
    }
    raise_block(&least, out, start, len);
}

// All n slots.
pub(crate) fn nearest_bytes(
    bundle: &[u8],
    places: [Span; MAX_FRAMES],
    count: usize,
    n: usize,
    out: &mut [u32],
)
    requires count_bound { (count ≤ 8) × (count ≡ length (frames bundle.now)) × (n ≤ length out.old) }
    requires placed_frames { PlacedFrames bundle.now places × CheckedFrames (frames bundle.now) n }
    ensures { out.new
        ≡ sets out.old 0 (table (nearest_byte (frames bundle.now)) 0 n) }
{
    for start in (0..n).step_by(BLOCK) {
        let len = BLOCK.min(n - start);
        nearest_block(bundle, places, count, n, start, len, out);
    }
}
