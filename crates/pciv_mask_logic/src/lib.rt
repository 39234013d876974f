// Masks of masks (docs/FORMAT.md, "Masks"): and, or, exclusive or, not, and the number of set bits, of masks of n slots.
// Refusals: 3 with map 1, then 13, then 12 where words are written. A refused call changes nothing, and what follows a
// result in the caller's list stays as it was.
#![tactic(auto)]

ghost use Rattle.std.specs.Prelude.{◌≡◌, not, ◌≤◌, length};
ghost use Rattle.std.proofs.lemmas.List.Edits.{sets};
ghost use Rattle.pciv_bytes.specs.Ranges.{table};
ghost use Rattle.pciv_format.specs.Read.{items_into};
ghost use Rattle.pciv_format.specs.Mask.{mask_len, refuse_masks, combine_outcome, combine_words};
ghost use Rattle.pciv_format.specs.Mask.{complement_outcome, complement_words, set_bits_outcome};
ghost use Rattle.pciv_format.specs.declared.MaskOp.TheVariants.{And, Or, Xor};
ghost use Rattle.pciv_mask_logic.specs.Logic.{bit_op, op_at, flip_at};

use pciv_bits::masks::{ALL_BITS, count_bits, is_mask};
use pciv_format::{MAX_SLOTS, MaskOp, Refusal, RefusalKind};
use pciv_layout::mask_len;
use pciv_layout::refusals::refuse;

// The answer of a routine that writes a mask of n slots to a list of `capacity` words; `good` says that the masks that
// are read are masks of n slots.
fn mask_into(n: usize, good: bool, capacity: usize) -> Result<usize, Refusal>
    ensures { result ≡ refuse_masks n (not good) (items_into (mask_len n) capacity) }
{
    if MAX_SLOTS < n {
        return refuse(RefusalKind::TooManySlots, 1, 0);
    }
    if !good {
        return refuse(RefusalKind::BadMask, 0, 0);
    }
    let count = mask_len(n);
    if capacity < count {
        return refuse(RefusalKind::BufferTooSmall, 0, 0);
    }
    Ok(count)
}

// The operation on two words.
fn bit_op(op: MaskOp, x: u64, y: u64) -> u64
    ensures { result ≡ bit_op op x y }
{
    match op {
        MaskOp::And => x & y,
        MaskOp::Or => x | y,
        MaskOp::Xor => x ^ y,
    }
}

// The operation on every two words, to the front of out. At a constant operation the compiler makes a loop without a test.
fn zip_words(op: MaskOp, a: &[u64], b: &[u64], out: &mut [u64])
    requires { (length a.now ≡ length b.now) × (length a.now ≤ length out.old) }
    ensures { out.new ≡ sets out.old 0 (table (op_at op a.now b.now) 0 (length a.now)) }
{
    for i in 0..a.len() {
        out[i] = bit_op(op, a[i], b[i]);
    }
}

// Checks both masks, and writes the operation on them.
fn combine(op: MaskOp, n: usize, a: &[u64], b: &[u64], out: &mut [u64]) -> Result<usize, Refusal>
    ensures answer { result ≡ combine_outcome op n a.now b.now (length out.old) }
    ensures words { out.new ≡ combine_words op n a.now b.now out.old }
{
    let count = mask_into(n, is_mask(n, a) & is_mask(n, b), out.len())?;
    zip_words(op, a, b, out);
    Ok(count)
}

// The slots that are set in both masks.
pub fn and(n: usize, a: &[u64], b: &[u64], out: &mut [u64]) -> Result<usize, Refusal>
    ensures answer { result ≡ combine_outcome And n a.now b.now (length out.old) }
    ensures words { out.new ≡ combine_words And n a.now b.now out.old }
{
    combine(MaskOp::And, n, a, b, out)
}

// The slots that are set in one of the masks, or in both.
pub fn or(n: usize, a: &[u64], b: &[u64], out: &mut [u64]) -> Result<usize, Refusal>
    ensures answer { result ≡ combine_outcome Or n a.now b.now (length out.old) }
    ensures words { out.new ≡ combine_words Or n a.now b.now out.old }
{
    combine(MaskOp::Or, n, a, b, out)
}

// The slots that are set in exactly one of the masks.
pub fn xor(n: usize, a: &[u64], b: &[u64], out: &mut [u64]) -> Result<usize, Refusal>
    ensures answer { result ≡ combine_outcome Xor n a.now b.now (length out.old) }
    ensures words { out.new ≡ combine_words Xor n a.now b.now out.old }
{
    combine(MaskOp::Xor, n, a, b, out)
}

// Every bit of a slot below n turned round, to the front of out: all bits of the words that the slots fill, and the low
// bits of the last word where they do not.
fn flip_words(n: usize, words: &[u64], out: &mut [u64])
    requires { (length words.now ≡ mask_len n) × (length words.now ≤ length out.old) }
    ensures { out.new ≡ sets out.old 0 (table (flip_at n words.now) 0 (mask_len n)) }
{
    let full = n / 64;
    for i in 0..full {
        out[i] = words[i] ^ ALL_BITS;
    }
    if full < words.len() {
        out[full] = words[full] ^ ((1 << (n % 64)) - 1);
    }
}

// The slots that are not set.
pub fn complement(n: usize, words: &[u64], out: &mut [u64]) -> Result<usize, Refusal>
    ensures answer { result ≡ complement_outcome n words.now (length out.old) }
    ensures words { out.new ≡ complement_words n words.now out.old }
{
    let count = mask_into(n, is_mask(n, words), out.len())?;
    flip_words(n, words, out);
    Ok(count)
}

// The number of set bits. Refusals: 3 with map 1, then 13.
pub fn set_bits(n: usize, words: &[u64]) -> Result<usize, Refusal>
    ensures answer { result ≡ set_bits_outcome n words.now }
{
    if MAX_SLOTS < n {
        return refuse(RefusalKind::TooManySlots, 1, 0);
    }
    if !is_mask(n, words) {
        return refuse(RefusalKind::BadMask, 0, 0);
    }
    Ok(count_bits(words))
}
