// A checked map and a mask made into the file of another map.
ghost use Rattle.std.specs.Prelude.{◌≡◌, ℕ, ◌+◌, ◌*◌, ◌≤◌, length, ltb};
ghost use Rattle.std.proofs.lemmas.List.Edits.{sets};
ghost use Rattle.pciv_bytes.specs.Ranges.{first_below};
ghost use Rattle.pciv_format.specs.Layout.{max_distance, overflow_count, overflow_part};
ghost use Rattle.pciv_format.specs.Check.{file_parts, CheckedMap};
ghost use Rattle.pciv_format.specs.Write.{map_into, file_buffer};
ghost use Rattle.pciv_format.specs.Words.{IsMask};
ghost use Rattle.pciv_build.specs.Build.{Fits};
ghost use Rattle.pciv_build.specs.Slots.{HoldsPrimary};
ghost use Rattle.pciv_mask_primary.specs.Masked.{masked_distance};

use crate::kept::{count_kept, put_kept};
use pciv_build::{begin, finish};
use pciv_format::{Refusal, RefusalKind, Summary};
use pciv_layout::refusals::refuse;
use pciv_map::totals::summary_of;
use pciv_mask_increment::{count_incremented, first_too_large, put_incremented};
use pciv_mask_primary::{MaskedOp, put_primary};

// The least slot where the result is above what a file can hold, or n.
fn first_large(op: MaskedOp, file: &[u8], n: usize, k: usize, words: &[u64]) -> usize
    requires checked_map { CheckedMap file.now n k }
    requires mask { IsMask n words.now }
    ensures { result ≡ first_below (λ (i : ℕ). ltb max_distance (masked_distance op (file_parts file.now n k) words.now i)) n }
{
    match op {
        MaskedOp::Keep => n,
        MaskedOp::Increment => first_too_large(file, n, k, words),
    }
}

// How many slots of the result are in overflow.
fn count_overflow(op: MaskedOp, file: &[u8], n: usize, k: usize, words: &[u64]) -> usize
    requires checked_map { CheckedMap file.now n k }
    requires mask { IsMask n words.now }
    ensures { result ≡ overflow_count n (masked_distance op (file_parts file.now n k) words.now) }
{
    match op {
        MaskedOp::Keep => count_kept(file, n, k, words),
        MaskedOp::Increment => count_incremented(file, n, k, words),
    }
}

// Writes the overflow entries of the result, `count` of them, whose primary bytes stand in the buffer.
fn put_entries(
    out: &mut [u8],
    op: MaskedOp,
    file: &[u8],
    n: usize,
    k: usize,
    words: &[u64],
    count: usize,
)
    requires checked_map { CheckedMap file.now n k }
    requires mask { IsMask n words.now }
    requires fits { Fits n (masked_distance op (file_parts file.now n k) words.now) }
    requires holds_primary { HoldsPrimary n (masked_distance op (file_parts file.now n k) words.now) out.old }
    requires count_value { count ≡ overflow_count n (masked_distance op (file_parts file.now n k) words.now) }
    requires count_in_bounds { 40 + n + 12 * count ≤ length out.old }
    ensures { out.new ≡ sets out.old (40 + n) (overflow_part n (masked_distance op (file_parts file.now n k) words.now)) }
{
    match op {
        MaskedOp::Keep => put_kept(out, file, n, k, words, count),
        MaskedOp::Increment => put_incremented(out, file, n, k, words, count),
    }
}

// Writes the file of the result to the front of out. Refusals: 11, then 12.
pub(crate) fn masked_into(
    op: MaskedOp,
    file: &[u8],
    n: usize,
    k: usize,
    words: &[u64],
    out: &mut [u8],
) -> Result<Summary, Refusal>
    requires checked_map { CheckedMap file.now n k }
    requires mask { IsMask n words.now }
    ensures answer { result ≡ map_into n (masked_distance op (file_parts file.now n k) words.now) (length out.old) }
    ensures buffer { out.new ≡ file_buffer (map_into n (masked_distance op (file_parts file.now n k) words.now) (length out.old)) n (masked_distance op (file_parts file.now n k) words.now) out.old }
{
    let large = first_large(op, file, n, k, words);
    if large < n {
        return refuse(RefusalKind::DistanceOverflow, 0, large);
    }
    let count = count_overflow(op, file, n, k, words);
    let counts = begin(out, n, count)?;
    put_primary(out, op, file, n, k, words);
    put_entries(out, op, file, n, k, words, count);
    finish(out, n, count);
    Ok(summary_of(out, counts))
}
