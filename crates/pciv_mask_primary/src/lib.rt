// The primary bytes of a map to which a mask is applied (docs/FORMAT.md, "Masks"): the bits of a word as bytes 0 and 1,
// and each with the map's byte.
#![tactic(auto)]

ghost use Rattle.std.specs.Prelude.{◌≡◌, ◌+◌, ◌≤◌, length, take, drop};
ghost use Rattle.std.proofs.lemmas.List.Edits.{sets};
ghost use Rattle.pciv_bytes.specs.Ranges.{table};
ghost use Rattle.pciv_format.specs.Layout.{primary};
ghost use Rattle.pciv_format.specs.Check.{file_parts, CheckedMap};
ghost use Rattle.pciv_format.specs.Words.{IsMask};
ghost use Rattle.pciv_mask_bytes.specs.Rows.{bit_rows};
ghost use Rattle.pciv_mask_primary.specs.Masked.{masked_distance, masked_byte, masked_word};
ghost use Rattle.pciv_mask_primary.specs.declared.MaskedOp.TheVariants.{Increment};

use pciv_bytes::copies::copy_bytes;
use pciv_format::HEADER_LEN;
use pciv_mask_bytes::bits::{few_at, last_bits, put_word};
use pciv_mask_bytes::rows::bit_rows;

// What is done with the distances of a map: kept where the mask is 1, else 0 ("cut"); or one more where it is 1
// ("tally").
#[derive(Clone, Copy)]
pub enum MaskedOp {
    Keep,
    Increment,
}

// What becomes of a primary byte, chosen between values, so that the compiler works on many bytes at once.
fn masked_byte(op: MaskedOp, bit: u8, x: u8) -> u8
    ensures { result ≡ masked_byte op bit x }
{
    match op {
        MaskedOp::Keep => if bit == 0 { 0 } else { x },
        MaskedOp::Increment => x.saturating_add(bit),
    }
}

// Writes what the bits of a word make of the primary bytes of 64 slots, from slot i on.
fn mask_word(out: &mut [u8], op: MaskedOp, file: &[u8], i: usize, rows: &[u8; 2048], word: u64)
    requires rows_value { rows.now ≡ bit_rows }
    requires i_in_bounds { (40 + i + 64 ≤ length file.now) × (40 + i + 64 ≤ length out.old) }
    ensures { out.new ≡ sets out.old (40 + i) (table (masked_word op file.now (40 + i) word) 0 64) }
{
    let mut bits: [u8; 64] = [0; 64];
    put_word(&mut bits, 0, rows, word);
    for j in 0..64 {
        let at = HEADER_LEN + i + j;
        out[at] = masked_byte(op, bits[j], file[at]);
    }
}

// Adds 1 to those of 64 bytes from `at` on whose bits are set in a word, and leaves 255 where it is: a walk over the set
// bits, the lowest first.
fn raise_set(out: &mut [u8], at: usize, word: u64)
    requires { at + 64 ≤ length out.old }
    ensures { out.new ≡ sets out.old at (table (masked_word Increment out.old at word) 0 64) }
{
    let mut rest = word;
    while 0 < rest {
        let slot = at + rest.trailing_zeros() as usize;
        out[slot] = masked_byte(MaskedOp::Increment, 1, out[slot]);
        rest &= rest - 1;
    }
}

// Copies 64 bytes from `at` on. They are all read into an array first, so that the compiler moves many at once: it need
// not ask whether the slices overlap.
fn copy_word(out: &mut [u8], file: &[u8], at: usize)
    requires { (at + 64 ≤ length file.now) × (at + 64 ≤ length out.old) }
    ensures { out.new ≡ sets out.old at (take 64 (drop at file.now)) }
{
    let mut bytes: [u8; 64] = [0; 64];
    bytes.copy_from_slice(&file[at..at + 64]);
    copy_bytes(&bytes, out, at);
}

// What mask_word writes for an increment, by a copy and a walk.
fn increment_few(out: &mut [u8], file: &[u8], i: usize, word: u64)
    requires { (40 + i + 64 ≤ length file.now) × (40 + i + 64 ≤ length out.old) }
    ensures { out.new ≡ sets out.old (40 + i) (table (masked_word Increment file.now (40 + i) word) 0 64) }
{
    let at = HEADER_LEN + i;
    copy_word(out, file, at);
    raise_set(out, at, word);
}

// Either of these: an increment by a walk, where few slots are set, else a pass over all bytes.
fn mask_slots(
    out: &mut [u8],
    op: MaskedOp,
    file: &[u8],
    i: usize,
    rows: &[u8; 2048],
    word: u64,
    few: bool,
)
    requires rows_value { rows.now ≡ bit_rows }
    requires i_in_bounds { (40 + i + 64 ≤ length file.now) × (40 + i + 64 ≤ length out.old) }
    ensures { out.new ≡ sets out.old (40 + i) (table (masked_word op file.now (40 + i) word) 0 64) }
{
    match op {
        MaskedOp::Keep => mask_word(out, MaskedOp::Keep, file, i, rows, word),
        MaskedOp::Increment => {
            if few {
                increment_few(out, file, i, word)
            } else {
                mask_word(out, MaskedOp::Increment, file, i, rows, word)
            }
        }
    }
}

// Writes the primary bytes of the result.
pub fn put_primary(out: &mut [u8], op: MaskedOp, file: &[u8], n: usize, k: usize, words: &[u64])
    requires checked_map { CheckedMap file.now n k }
    requires mask { IsMask n words.now }
    requires n_in_bounds { 40 + n ≤ length out.old }
    ensures { out.new ≡ sets out.old 40 (primary n (masked_distance op (file_parts file.now n k) words.now)) }
{
    let rows = bit_rows();
    let mut few = false;
    for w in 0..n / 64 {
        few = few_at(words, w, few);
        mask_slots(out, op, file, 64 * w, &rows, words[w], few);
    }
    let bits = last_bits(words, n, &rows);
    for i in n - n % 64..n {
        out[HEADER_LEN + i] = masked_byte(op, bits[i % 64], file[HEADER_LEN + i]);
    }
}
