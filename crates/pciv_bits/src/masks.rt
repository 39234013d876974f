// Words of 64 bits, and masks among them; their set bits (docs/FORMAT.md, "Masks").
ghost use Rattle.std.specs.Prelude.{◌≡◌, ℕ, ◌*◌, ◌≤◌, not, length, count_ones};
ghost use Rattle.pciv_bytes.specs.Ranges.{flag, sum_from};
ghost use Rattle.pciv_format.specs.Mask.{bad_mask, mask_has};

// A word with all bits set.
pub const ALL_BITS: u64 = 0xFFFF_FFFF_FFFF_FFFF;

// The words are a mask of n slots: as many as n needs, and no bit past n is set.
pub fn is_mask(n: usize, words: &[u64]) -> bool
    ensures { result ≡ not (bad_mask n words.now) }
{
    let full = n / 64;
    let tail = n % 64;
    if tail == 0 {
        return words.len() == full;
    }
    if words.len() != full + 1 {
        return false;
    }
    words[full] >> tail == 0
}

// The set bits of a word.
fn count_word(x: u64) -> usize
    ensures { (result ≡ count_ones x) × (result ≤ 64) }
{
    x.count_ones() as usize
}

// The set bits of all words.
pub fn count_bits(words: &[u64]) -> usize
    requires { length words.now ≤ 16384 }
    ensures { result ≡ sum_from (λ (i : ℕ). flag (mask_has words.now i)) 0 (64 * length words.now) }
{
    let mut sum: usize = 0;
    for word in words {
        sum += count_word(*word);
    }
    sum
}
