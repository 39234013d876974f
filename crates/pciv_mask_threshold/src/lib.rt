// Masks of a map (docs/FORMAT.md, "Masks"): the slots whose distance is below, at most, above or at least t, and the near
// mask, those whose distance is from 1 to t. The file is checked first, and refused as the check refuses it, with map 1;
// then 12. A refused call changes no word, and words past the mask stay as they were.
#![tactic(auto)]

mod entries;

ghost use Rattle.std.specs.Prelude.{◌≡◌, true, ◌≤◌, length};
ghost use Rattle.std.proofs.lemmas.List.Edits.{sets};
ghost use Rattle.pciv_format.specs.Check.{file_parts, CheckedMap};
ghost use Rattle.pciv_format.specs.Mask.{mask_len, mask_of, select_outcome, select_words, threshold_outcome};
ghost use Rattle.pciv_format.specs.Mask.{threshold_words, near_mask_outcome, near_mask_words};
ghost use Rattle.pciv_mask_threshold.specs.Select.{limit_of, is_negated, asked_of, asked_in, bytes_tell};
ghost use Rattle.pciv_mask_threshold.specs.Select.{limit_asked, start_in};

use crate::entries::flip_entries;
use pciv_bits::flags::{fill, flags_into, near_into};
use pciv_check::check_counts;
use pciv_format::{Comparison, HEADER_LEN, Refusal, RefusalKind, SENTINEL};
use pciv_layout::mask_len;
use pciv_layout::refusals::refuse;

// The least limit that every inline distance is below.
const INLINE_LIMIT: u64 = SENTINEL as u64;

// The limit that a comparison with t asks about.
fn limit_of(comparison: Comparison, t: u32) -> u64
    ensures { result ≡ limit_of comparison t }
{
    match comparison {
        Comparison::Below => t as u64,
        Comparison::AtMost => t as u64 + 1,
        Comparison::Above => t as u64 + 1,
        Comparison::AtLeast => t as u64,
    }
}

// The comparison asks for the distances that are not below the limit.
fn is_negated(comparison: Comparison) -> bool
    ensures { result ≡ is_negated comparison }
{
    match comparison {
        Comparison::Below => false,
        Comparison::AtMost => false,
        Comparison::Above => true,
        Comparison::AtLeast => true,
    }
}

// What is asked of a distance: that it is below a limit, or, negated, that it is not; or that it is from 1 to t.
#[derive(Clone, Copy)]
enum Asked {
    Limit(u64, bool),
    Near(u32),
}

// The primary bytes tell of which distances what is asked holds. Where they do not, all inline distances are below the
// limit, or at most t.
fn bytes_tell(asked: Asked) -> bool
    ensures { result ≡ bytes_tell asked }
{
    match asked {
        Asked::Limit(limit, _) => limit < INLINE_LIMIT,
        Asked::Near(t) => t < SENTINEL as u32,
    }
}

// The limit; for the near mask at t it is t + 1.
fn limit_asked(asked: Asked) -> u64
    ensures { result ≡ limit_asked asked }
{
    match asked {
        Asked::Limit(limit, _) => limit,
        Asked::Near(t) => t as u64 + 1,
    }
}

// The mask of a checked map where the primary bytes tell.
fn bytes_into(file: &[u8], n: usize, k: usize, asked: Asked, out: &mut [u64])
    requires checked_map { CheckedMap file.now n k }
    requires n_in_bounds { (mask_len n ≤ length out.old) × (bytes_tell asked ≡ true) }
    ensures { out.new ≡ sets out.old 0 (mask_of n (asked_in (file_parts file.now n k) asked)) }
{
    let end = HEADER_LEN + n;
    match asked {
        Asked::Limit(limit, negated) => {
            flags_into(&file[HEADER_LEN..end], limit as u8, negated, out)
        }
        Asked::Near(t) => near_into(&file[HEADER_LEN..end], t as u8, out),
    }
}

// Where the bytes do not tell: the mask as if every distance in overflow were below the limit, so all slots alike, or those
// whose byte is not 0.
fn start_into(file: &[u8], n: usize, k: usize, asked: Asked, out: &mut [u64])
    requires checked_map { CheckedMap file.now n k }
    requires n_in_bounds { mask_len n ≤ length out.old }
    ensures { out.new ≡ sets out.old 0 (mask_of n (start_in (file_parts file.now n k) asked)) }
{
    let end = HEADER_LEN + n;
    match asked {
        Asked::Limit(_, negated) => fill(n, !negated, out),
        Asked::Near(_) => flags_into(&file[HEADER_LEN..end], 1, true, out),
    }
}

// The mask of a checked map by what is asked: by the primary bytes where they tell; else a start, in which the slots
// of the entries that are not below the limit are then flipped.
fn asked_into(file: &[u8], n: usize, k: usize, asked: Asked, out: &mut [u64])
    requires checked_map { CheckedMap file.now n k }
    requires n_in_bounds { mask_len n ≤ length out.old }
    ensures { out.new ≡ sets out.old 0 (mask_of n (asked_in (file_parts file.now n k) asked)) }
{
    if bytes_tell(asked) {
        bytes_into(file, n, k, asked, out);
    } else {
        start_into(file, n, k, asked, out);
        flip_entries(file, n, k, limit_asked(asked), out);
    }
}

// The mask of the distances of which what is asked holds, to the front of out.
fn select(file: &[u8], asked: Asked, out: &mut [u64]) -> Result<usize, Refusal>
    ensures answer { result ≡ select_outcome file.now (length out.old) }
    ensures words { out.new ≡ select_words (asked_of asked) file.now out.old }
{
    let counts = check_counts(file, 1)?;
    let n = counts.n;
    let k = counts.k;
    let count = mask_len(n);
    if out.len() < count {
        return refuse(RefusalKind::BufferTooSmall, 0, 0);
    }
    asked_into(file, n, k, asked, out);
    Ok(count)
}

// The mask of the slots whose distance compares with t as asked, to the front of the caller's list of words; answers how
// many words. Refusals: 1 to 8, then 12.
pub fn threshold(
    file: &[u8],
    comparison: Comparison,
    t: u32,
    out: &mut [u64],
) -> Result<usize, Refusal>
    ensures answer { result ≡ threshold_outcome comparison file.now t (length out.old) }
    ensures words { out.new ≡ threshold_words comparison file.now t out.old }
{
    select(
        file,
        Asked::Limit(limit_of(comparison, t), is_negated(comparison)),
        out,
    )
}

// The near mask at t, likewise: the slots whose distance is from 1 to t. Refusals: 1 to 8, then 12.
pub fn near_mask(file: &[u8], t: u32, out: &mut [u64]) -> Result<usize, Refusal>
    ensures answer { result ≡ near_mask_outcome file.now t (length out.old) }
    ensures words { out.new ≡ near_mask_words file.now t out.old }
{
    select(file, Asked::Near(t), out)
}
