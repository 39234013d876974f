// A mask as bytes 0 and 1, one for each slot.
ghost use Rattle.std.specs.Prelude.{◌≡◌, ◌+◌, ◌*◌, ◌/◌, ◌%◌, ◌^◌, ◌≤◌, ◌<◌, length, get_or};
ghost use Rattle.std.proofs.lemmas.List.Edits.{sets};
ghost use Rattle.pciv_bytes.specs.Ranges.{table};
ghost use Rattle.pciv_format.specs.Mask.{bit_at, mask_value};
ghost use Rattle.pciv_mask_bytes.specs.Rows.{bit_rows};

use crate::rows::{bit_rows, put_row};
use pciv_bytes::copies::copy_bytes;
use pciv_format::HEADER_LEN;

// 1 where a slot is set, else 0.
pub fn bit_of(words: &[u64], slot: usize) -> u8
    requires { slot < 64 * length words.now }
    ensures { result ≡ mask_value words.now slot }
{
    ((words[slot / 64] >> (slot % 64)) % 2) as u8
}

// Words are taken together in blocks of this many.
const BLOCK: usize = 16;

// Few slots of a block are set where its words, laid over one another, have at most this many set bits.
const FEW_SET: u32 = 8;

// Whether few slots are set in the block of words from `from` on; not so where fewer words than a block are left.
fn few_set(words: &[u64], from: usize) -> bool
    requires { from ≤ length words.now }
{
    if words.len() - from < BLOCK {
        return false;
    }
    let mut any: u64 = 0;
    for word in &words[from..from + BLOCK] {
        any |= *word;
    }
    any.count_ones() <= FEW_SET
}

// Whether few slots are set in the block of word w: asked at its first word, else the answer for the word before. It is a
// guess at which way is quicker and no promise; one answer for a whole block is one that the processor foresees.
pub fn few_at(words: &[u64], w: usize, before: bool) -> bool
    requires { w ≤ length words.now }
{
    if w % BLOCK == 0 {
        return few_set(words, w);
    }
    before
}

// Eight bits of a word, from bit j on.
fn eight_bits(word: u64, j: usize) -> usize
    requires { j < 64 }
    ensures { result ≡ word / 2 ^ j % 256 }
{
    ((word >> j) % 256) as usize
}

// Writes the 64 bits of a word from `at` on, eight at once through the table.
pub fn put_word(out: &mut [u8], at: usize, rows: &[u8; 2048], word: u64)
    requires { (rows.now ≡ bit_rows) × (at + 64 ≤ length out.old) }
    ensures { out.new ≡ sets out.old at (table (bit_at word) 0 64) }
{
    for row in 0..8 {
        let j = 8 * row;
        put_row(out, at + j, rows, eight_bits(word, j));
    }
}

// The bits of the word after the last whole one of n slots, through the table; 0 where there is none.
pub fn last_bits(words: &[u64], n: usize, rows: &[u8; 2048]) -> [u8; 64]
    requires { rows.now ≡ bit_rows }
    ensures { result ≡ table (bit_at (get_or words.now (n / 64) 0)) 0 64 }
{
    let mut bits: [u8; 64] = [0; 64];
    if n / 64 < words.len() {
        put_word(&mut bits, 0, rows, words[n / 64]);
    }
    bits
}

// Writes the bits of the n slots where a file has its primary array: word by word, and then what is left.
pub fn put_bits(out: &mut [u8], n: usize, words: &[u64])
    requires { (n ≤ 64 * length words.now) × (40 + n ≤ length out.old) }
    ensures { out.new ≡ sets out.old 40 (table (mask_value words.now) 0 n) }
{
    let rows = bit_rows();
    for w in 0..n / 64 {
        put_word(out, HEADER_LEN + 64 * w, &rows, words[w]);
    }
    let bits = last_bits(words, n, &rows);
    copy_bytes(&bits[..n % 64], out, HEADER_LEN + n - n % 64);
}
