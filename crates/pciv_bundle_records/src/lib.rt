// The records of a bundle (docs/FORMAT.md, "Bundles"): refusal 14, the two counts, and where the frames stand. One walk
// over the records finds all of it; definitions are in specs/Records.antt.
#![tactic(auto)]

ghost use Rattle.std.specs.Prelude.{◌≡◌, ◌<◌, length, get_or, ◌||◌, [], ltb};
ghost use Rattle.pciv_bundle_records.specs.Records.{bad_header, records_outcome, frames};
ghost use Rattle.pciv_bundle_records.specs.Records.{PlacedFrame, IsSplit, wrong_record};

use pciv_bytes::little_endian::{get16, get32};
use pciv_format::{Refusal, RefusalKind};
use pciv_layout::refusals::refuse;

// The most frames that a bundle may have.
pub const MAX_FRAMES: usize = 8;

// What stands before a record's payload: its length, 4 bytes, and its kind, 2 bytes. The length counts the kind.
pub const PREFIX_LEN: usize = 6;

pub const KIND_LEN: usize = 2;

// The length of record 0: slot count, 4 bytes, and frame count, 2 bytes, behind the prefix.
pub const HEADER_RECORD_LEN: usize = 12;

// The kinds of records that have a meaning.
pub const HEADER_KIND: usize = 0;

pub const FRAME_KIND: usize = 1;

// What record 0 says: how many slots each frame has, and how many frames there are.
#[derive(Clone, Copy)]
pub struct BundleCounts {
    pub slots: usize,
    pub frames: usize,
}

// Where a frame stands in a bundle: from `start` up to `end`.
#[derive(Clone, Copy)]
pub struct Span {
    pub start: usize,
    pub end: usize,
}

// What the walk over the records of a bundle finds: its counts and the places of its frames.
#[derive(Clone, Copy)]
pub struct Split {
    pub counts: BundleCounts,
    pub places: [Span; MAX_FRAMES],
}

// The frame with this number, here from 0, as a part of the bundle.
pub fn frame_at(bundle: &[u8], places: [Span; MAX_FRAMES], f: usize) -> &[u8]
    requires { (f < 8) × PlacedFrame bundle.now places (frames bundle.now) f }
    ensures { result.now ≡ get_or (frames bundle.now) f [] }
{
    let place = places[f];
    &bundle[place.start..place.end]
}

// Whether record 0 is at fault or missing. A right one has 12 bytes, kind 0, length 8 and a frame count from 1 to 8.
fn bad_header(bundle: &[u8]) -> bool
    ensures { result ≡ (ltb (length bundle.now) 12 || bad_header bundle.now) }
{
    if bundle.len() < HEADER_RECORD_LEN {
        return true;
    }
    let len = get32(bundle, 0) as usize;
    let kind = get16(bundle, 4);
    let count = get16(bundle, 10);
    kind != HEADER_KIND || len != HEADER_RECORD_LEN - 4 || count < 1 || MAX_FRAMES < count
}

// Whether the record that starts at `at`, behind record 0 and `found` of `count` frames, is at fault.
fn wrong_record(bundle: &[u8], at: usize, found: usize, count: usize) -> bool
    requires { at < length bundle.now }
    ensures { result ≡ wrong_record bundle.now at found count }
{
    let left = bundle.len() - at;
    if left < PREFIX_LEN {
        return true;
    }
    let len = get32(bundle, at) as usize;
    let kind = get16(bundle, at + 4);
    let is_header = kind == HEADER_KIND;
    if left - 4 < len || len < KIND_LEN || is_header {
        return true;
    }
    kind == FRAME_KIND && count <= found
}

// The counts of a bundle and the places of its frames, which are not checked yet, or why it is none. Refusals: 14, with
// the number of a record, or how many there are.
pub fn split_records(bundle: &[u8]) -> Result<Split, Refusal>
    ensures { IsSplit bundle.now (records_outcome bundle.now) result }
{
    if bad_header(bundle) {
        return refuse(RefusalKind::BadBundle, 0, 0);
    }
    let slots = get32(bundle, 6) as usize;
    let count = get16(bundle, 10);
    let mut places = [Span { start: 0, end: 0 }; MAX_FRAMES];
    let mut found = 0;
    let mut number = 1;
    let mut at = HEADER_RECORD_LEN;
    while at < bundle.len() {
        if wrong_record(bundle, at, found, count) {
            return refuse(RefusalKind::BadBundle, 0, number);
        }
        let end = at + 4 + get32(bundle, at) as usize;
        if get16(bundle, at + 4) == FRAME_KIND {
            places[found] = Span {
                start: at + PREFIX_LEN,
                end,
            };
            found += 1;
        }
        number += 1;
        at = end;
    }
    if found < count {
        return refuse(RefusalKind::BadBundle, 0, number);
    }
    Ok(Split {
        counts: BundleCounts {
            slots,
            frames: count,
        },
        places,
    })
}
