// Files made from masks (docs/FORMAT.md, "Masks").
#![tactic(auto)]

mod kept;
mod masked;

ghost use Rattle.std.specs.Prelude.{◌≡◌, ◌≤◌, length};
ghost use Rattle.pciv_format.specs.Layout.{max_slots};
ghost use Rattle.pciv_format.specs.Write.{file_into, file_buffer};
ghost use Rattle.pciv_format.specs.Mask.{mask_value, map_of_mask_outcome, map_of_mask_buffer, masked_outcome};
ghost use Rattle.pciv_format.specs.Mask.{masked_buffer, keep_masked_outcome, keep_masked_buffer};
ghost use Rattle.pciv_format.specs.Mask.{increment_masked_outcome, increment_masked_buffer};
ghost use Rattle.pciv_format.specs.Words.{IsMask};
ghost use Rattle.pciv_mask_primary.specs.Masked.{masked_of};

use crate::masked::masked_into;
use pciv_bits::masks::{count_bits, is_mask};
use pciv_build::begin;
use pciv_check::check_counts;
use pciv_format::{MAX_SLOTS, Refusal, RefusalKind, Summary};
use pciv_layout::refusals::refuse;
use pciv_layout::summarized;
use pciv_mask_bytes::bits::put_bits;
use pciv_mask_primary::MaskedOp;

// Writes the file of a mask as a map of 0 and 1, which has no overflow entry and no index. Its sum is the number of set
// bits. Refusal: 12.
fn bits_into(n: usize, words: &[u64], out: &mut [u8]) -> Result<Summary, Refusal>
    requires n_le_max_slots { n ≤ max_slots }
    requires mask { IsMask n words.now }
    ensures answer { result ≡ file_into n (mask_value words.now) (length out.old) }
    ensures buffer { out.new ≡ file_buffer (file_into n (mask_value words.now) (length out.old)) n (mask_value words.now) out.old }
{
    let counts = begin(out, n, 0)?;
    put_bits(out, n, words);
    Ok(summarized(counts, count_bits(words)))
}

// Writes the file of a mask of n slots as a map of 0 and 1 to the front of the caller's buffer. Refusals: 3, then 13,
// then 12. A refused call changes no byte, and bytes past the file stay as they were.
pub fn map_of_mask(n: usize, words: &[u64], out: &mut [u8]) -> Result<Summary, Refusal>
    ensures answer { result ≡ map_of_mask_outcome n words.now (length out.old) }
    ensures buffer { out.new ≡ map_of_mask_buffer n words.now out.old }
{
    if MAX_SLOTS < n {
        return refuse(RefusalKind::TooManySlots, 1, 0);
    }
    if !is_mask(n, words) {
        return refuse(RefusalKind::BadMask, 0, 0);
    }
    bits_into(n, words, out)
}

// Both of the following.
fn mask_map(op: MaskedOp, file: &[u8], words: &[u64], out: &mut [u8]) -> Result<Summary, Refusal>
    ensures answer { result ≡ masked_outcome (masked_of op) file.now words.now (length out.old) }
    ensures buffer { out.new ≡ masked_buffer (masked_of op) file.now words.now out.old }
{
    let counts = check_counts(file, 1)?;
    let n = counts.n;
    let k = counts.k;
    if !is_mask(n, words) {
        return refuse(RefusalKind::BadMask, 0, 0);
    }
    masked_into(op, file, n, k, words, out)
}

// Writes the file of the map with distance 0 where the mask is 0 ("cut") to the front of the caller's buffer.
// Refusals: 1 to 8, then 13, then 12. A refused call changes no byte, and bytes past the file stay as they were.
pub fn keep_masked(file: &[u8], words: &[u64], out: &mut [u8]) -> Result<Summary, Refusal>
    ensures answer { result ≡ keep_masked_outcome file.now words.now (length out.old) }
    ensures buffer { out.new ≡ keep_masked_buffer file.now words.now out.old }
{
    mask_map(MaskedOp::Keep, file, words, out)
}

// Writes the file of the map with 1 added where the mask is 1 ("tally") to the front of the caller's buffer.
// Refusals: 1 to 8, then 13, then 11 with the least slot whose result is no distance, then 12. A refused call changes
// no byte, and bytes past the file stay as they were.
pub fn increment_masked(file: &[u8], words: &[u64], out: &mut [u8]) -> Result<Summary, Refusal>
    ensures answer { result ≡ increment_masked_outcome file.now words.now (length out.old) }
    ensures buffer { out.new ≡ increment_masked_buffer file.now words.now out.old }
{
    mask_map(MaskedOp::Increment, file, words, out)
}
