// The overflow entries of a map with 1 added where a mask is 1: its own, and those of the set slots with distance 254.
#![tactic(auto)]

ghost use Rattle.std.specs.Prelude.{◌≡◌, ℕ, ◌+◌, ◌*◌, ◌≤◌, length, ltb};
ghost use Rattle.std.proofs.lemmas.List.Edits.{sets};
ghost use Rattle.pciv_bytes.specs.Ranges.{first_below, sum_from};
ghost use Rattle.pciv_bytes.specs.ByteAt.{byte_is};
ghost use Rattle.pciv_format.specs.Layout.{max_distance, overflow_count, overflow_part};
ghost use Rattle.pciv_format.specs.Check.{file_parts, CheckedMap};
ghost use Rattle.pciv_format.specs.Words.{IsMask};
ghost use Rattle.pciv_build.specs.Slots.{HoldsPrimary};
ghost use Rattle.pciv_build.specs.Build.{Fits};
ghost use Rattle.pciv_mask_primary.specs.Masked.{masked_distance};
ghost use Rattle.pciv_mask_increment.specs.Raised.{raised_at, picked, SetBelow};
ghost use Rattle.pciv_mask_primary.specs.declared.MaskedOp.TheVariants.{Increment};

use pciv_build::put_entry;
use pciv_build::slots::put_slots;
use pciv_bytes::find::any_byte;
use pciv_bytes::little_endian::get64;
use pciv_format::{HEADER_LEN, INLINE_MAX, MAX_DISTANCE};
use pciv_map::cursor::take_at;
use pciv_map::entries::{entry_distance, entry_slot};
use pciv_mask_bytes::bits::bit_of;

// The least slot where the result is above what a file can hold, or n: only a slot in overflow can be it.
pub fn first_too_large(file: &[u8], n: usize, k: usize, words: &[u64]) -> usize
    requires checked_map { CheckedMap file.now n k }
    requires mask { IsMask n words.now }
    ensures { result ≡ first_below (λ (i : ℕ). ltb max_distance (masked_distance Increment (file_parts file.now n k) words.now i)) n }
{
    for j in 0..k {
        let slot = entry_slot(file, n, j);
        let x = entry_distance(file, n, j);
        if MAX_DISTANCE - x < bit_of(words, slot) as u32 {
            return slot;
        }
    }
    n
}

// How many of the slots from `from` on whose bits are set in a word have byte 254: a walk over the set bits, the lowest
// first.
fn count_set(bytes: &[u8], from: usize, word: u64) -> usize
    requires { SetBelow (length bytes.now) from word }
    ensures { result ≡ picked (byte_is bytes.now 254) from 64 word }
{
    let mut count: usize = 0;
    let mut rest = word;
    while 0 < rest {
        let slot = from + rest.trailing_zeros() as usize;
        count += (bytes[slot] == INLINE_MAX) as usize;
        rest &= rest - 1;
    }
    count
}

// The same; a word none of whose slots has that byte is passed at once.
fn count_word(bytes: &[u8], from: usize, word: u64) -> usize
    requires { (from ≤ length bytes.now) × SetBelow (length bytes.now) from word }
    ensures { result ≡ picked (byte_is bytes.now 254) from 64 word }
{
    if 64 <= bytes.len() - from {
        if !any_byte(bytes, from, from + 64, INLINE_MAX) {
            return 0;
        }
    }
    count_set(bytes, from, word)
}

// How many set slots have byte 254.
fn count_raised(bytes: &[u8], words: &[u64]) -> usize
    requires mask { IsMask (length bytes.now) words.now }
    requires bytes_len_bound { length bytes.now ≤ 1048576 }
    ensures { result ≡ sum_from (raised_at bytes.now words.now) 0 (64 * length words.now) }
{
    let mut count: usize = 0;
    for (w, word) in words.iter().enumerate() {
        count += count_word(bytes, 64 * w, *word);
    }
    count
}

// How many slots of the result are in overflow.
pub fn count_incremented(file: &[u8], n: usize, k: usize, words: &[u64]) -> usize
    requires checked_map { CheckedMap file.now n k }
    requires mask { IsMask n words.now }
    ensures { result ≡ overflow_count n (masked_distance Increment (file_parts file.now n k) words.now) }
{
    let end = HEADER_LEN + n;
    k + count_raised(&file[HEADER_LEN..end], words)
}

// Writes the overflow entries of the result, `count` of them, whose primary bytes stand in the buffer: first their slots,
// then at each slot the distance.
pub fn put_incremented(out: &mut [u8], file: &[u8], n: usize, k: usize, words: &[u64], count: usize)
    requires checked_map { CheckedMap file.now n k }
    requires mask { IsMask n words.now }
    requires fits { Fits n (masked_distance Increment (file_parts file.now n k) words.now) }
    requires holds_primary { HoldsPrimary n (masked_distance Increment (file_parts file.now n k) words.now) out.old }
    requires count_value { count ≡ overflow_count n (masked_distance Increment (file_parts file.now n k) words.now) }
    requires count_in_bounds { 40 + n + 12 * count ≤ length out.old }
    ensures { out.new ≡ sets out.old (40 + n) (overflow_part n (masked_distance Increment (file_parts file.now n k) words.now)) }
{
    put_slots(out, n);
    let mut at = HEADER_LEN + n;
    let end = at + 12 * count;
    let mut j = 0;
    while at < end {
        let slot = get64(out, at);
        let x = take_at(file, n, k, j, slot);
        j = x.next;
        at = put_entry(out, at, slot, x.distance + bit_of(words, slot) as u32);
    }
}
