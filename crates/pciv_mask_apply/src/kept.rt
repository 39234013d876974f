// The overflow entries of a map that is kept where a mask is 1: those of its entries whose slots are set.
ghost use Rattle.std.specs.Prelude.{◌≡◌, ◌+◌, ◌*◌, ◌≤◌, length};
ghost use Rattle.std.proofs.lemmas.List.Edits.{sets};
ghost use Rattle.pciv_format.specs.Layout.{overflow_count, overflow_part};
ghost use Rattle.pciv_format.specs.Check.{file_parts, CheckedMap};
ghost use Rattle.pciv_format.specs.Words.{IsMask};
ghost use Rattle.pciv_mask_primary.specs.Masked.{masked_distance};
ghost use Rattle.pciv_mask_primary.specs.declared.MaskedOp.TheVariants.{Keep};

use pciv_build::put_entry;
use pciv_format::HEADER_LEN;
use pciv_map::entries::{entry_distance, entry_slot};
use pciv_mask_bytes::bits::bit_of;

// How many entries are kept.
pub(crate) fn count_kept(file: &[u8], n: usize, k: usize, words: &[u64]) -> usize
    requires checked_map { CheckedMap file.now n k }
    requires mask { IsMask n words.now }
    ensures { result ≡ overflow_count n (masked_distance Keep (file_parts file.now n k) words.now) }
{
    let mut count: usize = 0;
    for j in 0..k {
        count += bit_of(words, entry_slot(file, n, j)) as usize;
    }
    count
}

// Writes the entries that are kept, `count` of them. One that is not is written over by the next, so that there is no
// choice to guess.
pub(crate) fn put_kept(out: &mut [u8], file: &[u8], n: usize, k: usize, words: &[u64], count: usize)
    requires checked_map { CheckedMap file.now n k }
    requires mask { IsMask n words.now }
    requires count_value { count ≡ overflow_count n (masked_distance Keep (file_parts file.now n k) words.now) }
    requires count_in_bounds { 40 + n + 12 * count ≤ length out.old }
    ensures { out.new ≡ sets out.old (40 + n) (overflow_part n (masked_distance Keep (file_parts file.now n k) words.now)) }
{
    let mut at = HEADER_LEN + n;
    let end = at + 12 * count;
    let mut j = 0;
    while at < end {
        let slot = entry_slot(file, n, j);
        put_entry(out, at, slot, entry_distance(file, n, j));
        let bit = bit_of(words, slot);
        at += 12 * (0 < bit) as usize;
        j += 1;
    }
}
