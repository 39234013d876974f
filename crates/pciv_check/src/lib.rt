// The check of a whole file, and of the file at the front of a buffer (docs/FORMAT.md, "Refusals"): refusals 1 to 8,
// first case first, else the summary, or the counts alone, which take no pass for the sum. Header and length are checked
// here, the parts in pciv_check_parts.
#![tactic(auto)]

pub mod pair;

ghost use Rattle.std.specs.Prelude.{◌≡◌, false, ◌<◌};
ghost use Rattle.pciv_format.specs.Refusals.{Outcome};
ghost use Rattle.pciv_format.specs.Check.{check_header, check_with, counts_file, counts_buffer, CheckedMap};
ghost use Rattle.pciv_format.specs.Read.{list_of, total, with_sum, check_file, check_buffer};
ghost use Rattle.pciv_format.specs.declared.Counts.{Counts};
ghost use Rattle.pciv_check.specs.Length.{wrong_length};

use pciv_bytes::little_endian::get64;
use pciv_check_parts::check_parts;
use pciv_format::{Counts, HEADER_LEN, MAGIC, MAX_SLOTS, Refusal, RefusalKind, Summary};
use pciv_layout::counts_of;
use pciv_layout::refusals::refuse;
use pciv_map::totals::summary_of;

// Refusals 1 to 4, else the counts of the header.
#[tactic(auto, unfolding(pciv_format::specs::Check::check_header, pciv_format::specs::Check::bad_counts, pciv_format::specs::Layout::counts_of))]
fn check_header(file: &[u8], map: usize) -> Result<Counts, Refusal>
    ensures { result ≡ check_header map file.now }
{
    let is_short = file.len() < HEADER_LEN;
    if is_short {
        return refuse(RefusalKind::TruncatedHeader, map, 0);
    }
    let magic = get64(file, 0);
    let n = get64(file, 8);
    let is_other = magic != MAGIC;
    let is_large = MAX_SLOTS < n;
    if is_other {
        return refuse(RefusalKind::BadMagic, map, 0);
    }
    if is_large {
        return refuse(RefusalKind::TooManySlots, map, 0);
    }
    let k = get64(file, 16);
    if n < k {
        return refuse(RefusalKind::BadCounts, map, 0);
    }
    let counts = counts_of(n, k);
    if get64(file, 32) != counts.step {
        return refuse(RefusalKind::BadCounts, map, 0);
    }
    if get64(file, 24) != counts.m {
        return refuse(RefusalKind::BadCounts, map, 0);
    }
    Ok(counts)
}

// A file of `len` bytes is wrong in a slice of `have`: a whole file has exactly its length, and a buffer to be edited
// may be longer than the file at its front.
fn wrong_length(whole: bool, have: usize, len: usize) -> bool
    ensures { result ≡ wrong_length whole have len }
{
    if whole {
        return have != len;
    }
    have < len
}

// Refusals 1 to 8 with the map's number, of a whole file or of the file at the front of a buffer.
#[tactic(auto, unfolding(pciv_format::specs::Check::check_with))]
fn check_with(file: &[u8], map: usize, whole: bool) -> Result<Counts, Refusal>
    ensures { result ≡ check_with (wrong_length whole) map file.now }
{
    let counts = check_header(file, map)?;
    let n = counts.n;
    let k = counts.k;
    let len = counts.len;
    if wrong_length(whole, file.len(), len) {
        return refuse(RefusalKind::BadLength, map, 0);
    }
    check_parts(file, map, n, k)
}

// The counts of a whole file, or why it is none. Refusals: 1 to 8, with the map's number, which is 1, or 2 for the second
// map of a call.
pub fn check_counts(file: &[u8], map: usize) -> Result<Counts, Refusal>
    ensures answer { result ≡ counts_file map file.now }
{
    check_with(file, map, true)
}

// The same of the file at the front of a buffer that is to be edited: refusal 5 only where the buffer is shorter than the
// file.
pub fn check_counts_buffer(buffer: &[u8], map: usize) -> Result<Counts, Refusal>
    ensures answer { result ≡ counts_buffer map buffer.now }
{
    check_with(buffer, map, false)
}

// The summary of a whole file, or why it is none. Refusals: 1 to 8, with map 1.
pub fn check(file: &[u8]) -> Result<Summary, Refusal>
    ensures answer { result ≡ check_file 1 file.now }
{
    let counts = check_counts(file, 1)?;
    let summary = summary_of(file, counts);
    Ok(summary)
}

// The same of the file at the front of a buffer that is to be edited. Refusals: 1 to 8, with map 1, and 5 only where the
// buffer is shorter than the file.
pub fn check_buffer(buffer: &[u8]) -> Result<Summary, Refusal>
    ensures answer { result ≡ check_buffer 1 buffer.now }
{
    let counts = check_counts_buffer(buffer, 1)?;
    Ok(summary_of(buffer, counts))
}
