// Writing a bundle: record 0, then each frame as a record of kind 1.
ghost use Rattle.std.specs.Prelude.{◌≡◌, ℕ, ◌+◌, ◌≤◌, ◌<◌, ◌^◌, map, length, take};
ghost use Rattle.std.proofs.lemmas.List.Edits.{sets};
ghost use Rattle.pciv_format.specs.Check.{n_field};
ghost use Rattle.pciv_bundle_records.specs.Records.{record_of, record_bytes, header_of, bundle_of};
ghost use Rattle.pciv_bundle.specs.Bundle.{ShortFrames, bundle_write_outcome, bundle_write_buffer};

use pciv_bundle_frames::check_lent;
use pciv_bundle_records::{
    FRAME_KIND, HEADER_KIND, HEADER_RECORD_LEN, KIND_LEN, MAX_FRAMES, PREFIX_LEN,
};
use pciv_bytes::copies::copy_bytes;
use pciv_bytes::little_endian::{get64, put16, put32};
use pciv_format::{HEADER_LEN, Refusal, RefusalKind};
use pciv_layout::refusals::refuse;

// The n of a file's header; 0 where there is no whole header, and the file is refused.
fn slots_of(file: &[u8]) -> usize
    ensures { 40 ≤ length file.now → result ≡ n_field file.now }
{
    if file.len() < HEADER_LEN {
        0
    } else {
        get64(file, 8)
    }
}

// The length of the bundle of some frames.
fn bundle_len(frames: &[&[u8]]) -> usize
    requires { (length frames.now ≤ 8) × ShortFrames (map (λ x. x.now) frames.now) }
    ensures { (n : ℕ) → result ≡ length (bundle_of n (map (λ x. x.now) frames.now)) }
{
    let mut len = HEADER_RECORD_LEN;
    for frame in frames {
        len += PREFIX_LEN + frame.len();
    }
    len
}

// Record 0, at the front.
fn put_header(out: &mut [u8], n: usize, count: usize)
    requires { (12 ≤ length out.old) × (n < 2 ^ 32) }
    ensures { out.new ≡ sets out.old 0 (record_bytes (header_of n count)) }
{
    put32(out, 0, (HEADER_RECORD_LEN - 4) as u32);
    put16(out, 4, HEADER_KIND);
    put32(out, 6, n as u32);
    put16(out, 10, count);
}

// A frame as a record, from `at` on.
fn put_frame(out: &mut [u8], at: usize, frame: &[u8])
    requires { (at + (6 + length frame.now) ≤ length out.old) × (2 + length frame.now < 2 ^ 32) }
    ensures { out.new ≡ sets out.old at (record_bytes (record_of 1 frame.now)) }
{
    put32(out, at, (KIND_LEN + frame.len()) as u32);
    put16(out, at + 4, FRAME_KIND);
    copy_bytes(frame, out, at + PREFIX_LEN);
}

// The whole bundle, at the front.
fn put_bundle(frames: &[&[u8]], n: usize, out: &mut [u8])
    requires short_frames { (length frames.now ≤ 8) × ShortFrames (map (λ x. x.now) frames.now) }
    requires n_bound { (n < 2 ^ 32) × (length (bundle_of n (map (λ x. x.now) frames.now)) ≤ length out.old) }
    ensures { out.new ≡ sets out.old 0 (bundle_of n (map (λ x. x.now) frames.now)) }
{
    put_header(out, n, frames.len());
    let mut at = HEADER_RECORD_LEN;
    for frame in frames {
        put_frame(out, at, frame);
        at += PREFIX_LEN + frame.len();
    }
}

// Writes the first `count` of eight frames as a bundle to the front of the caller's buffer; answers how many bytes. The
// others are not looked at. Refusals: 14 where `count` is not from 1 to 8, then each used frame's 1 to 8, then 10 against
// the n of the first, then 12.
pub fn write(frames: &[&[u8]; MAX_FRAMES], count: usize, out: &mut [u8]) -> Result<usize, Refusal>
    ensures answer { result
        ≡ bundle_write_outcome (map (λ x. x.now) frames.now) count (length out.old) }
    ensures buffer { out.new
        ≡ bundle_write_buffer (map (λ x. x.now) frames.now) count out.old }
{
    let has_many = MAX_FRAMES < count;
    if count < 1 || has_many {
        return refuse(RefusalKind::BadBundle, 0, 0);
    }
    let n = check_lent(frames, count, slots_of(frames[0]))?;
    let used = &frames[..count];
    let len = bundle_len(used);
    if out.len() < len {
        return refuse(RefusalKind::BufferTooSmall, 0, 0);
    }
    put_bundle(used, n, out);
    Ok(len)
}
