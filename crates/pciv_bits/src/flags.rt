// Mask words (docs/FORMAT.md, "Masks") of bytes: a bit is set where a byte is below a limit, or, negated, where it is
// not; or where it is from 1 to t; and of n slots that are all alike.
ghost use Rattle.std.specs.Prelude.{◌≡◌, ℕ, ◌+◌, ◌-◌, ◌^◌, ◌<◌, ◌≤◌, length, if◌then◌else◌};
ghost use Rattle.std.proofs.lemmas.List.Edits.{sets};
ghost use Rattle.pciv_format.specs.Mask.{mask_len, word, mask_of};
ghost use Rattle.pciv_bits.specs.Flags.{flag_at, passes_at, near_at};

use crate::gather::{ByteTest, Pair, gather, is_met};
use crate::masks::ALL_BITS;
use crate::transpose::transpose;

// The word of c set bits.
fn ones(c: usize) -> u64
    requires { (0 < c) × (c ≤ 64) }
    ensures { result ≡ 2 ^ c - 1 }
{
    ALL_BITS >> (64 - c)
}

// The word x, or, negated, the other bits of `all`.
fn flip_if(negated: bool, all: u64, x: u64) -> u64
    requires { x ≤ all }
    ensures { result ≡ (if negated then all - x else x) }
{
    if negated {
        return all - x;
    }
    x
}

// The two words of the 128 bytes from i on.
fn full_words(a: &[u8], i: usize, test: ByteTest, negated: bool) -> Pair
    requires { i + 128 ≤ length a.now }
    ensures { (result.first ≡ word (flag_at a.now test negated) i 64) × (result.second ≡ word (flag_at a.now test negated) (i + 64) 64) }
{
    let gathered = gather(a, i, test);
    Pair {
        first: flip_if(negated, ALL_BITS, transpose(gathered.first)),
        second: flip_if(negated, ALL_BITS, transpose(gathered.second)),
    }
}

// The word of the bytes from `from` up to `to`, at most 64, one bit a turn.
fn part_word(a: &[u8], from: usize, to: usize, test: ByteTest, negated: bool) -> u64
    requires { (from < to) × (to ≤ length a.now) × (to ≤ from + 64) }
    ensures { result ≡ word (flag_at a.now test negated) from (to - from) }
{
    let mut x: u64 = 0;
    for j in (from..to).rev() {
        x = 2 * x + is_met(test, a[j]) as u64;
    }
    flip_if(negated, ones(to - from), x)
}

// The mask of the bytes that meet the test, or, negated, do not, to the front of out: two words a turn, while there are.
fn words_into(a: &[u8], test: ByteTest, negated: bool, out: &mut [u64])
    requires { mask_len (length a.now) ≤ length out.old }
    ensures { out.new ≡ sets out.old 0 (mask_of (length a.now) (flag_at a.now test negated)) }
{
    let n = a.len();
    let pairs = n / 128;
    for p in 0..pairs {
        let pair = full_words(a, 128 * p, test, negated);
        out[2 * p] = pair.first;
        out[2 * p + 1] = pair.second;
    }
    for w in 2 * pairs..n.div_ceil(64) {
        out[w] = part_word(a, 64 * w, usize::min(64 * w + 64, n), test, negated);
    }
}

// The mask of the bytes below a limit, or, negated, of the others, to the front of out.
pub fn flags_into(a: &[u8], limit: u8, negated: bool, out: &mut [u64])
    requires { mask_len (length a.now) ≤ length out.old }
    ensures { out.new ≡ sets out.old 0 (mask_of (length a.now) (passes_at a.now limit negated)) }
{
    words_into(a, ByteTest::Below(limit), negated, out);
}

// The mask of the bytes from 1 to t, to the front of out.
pub fn near_into(a: &[u8], t: u8, out: &mut [u64])
    requires { mask_len (length a.now) ≤ length out.old }
    ensures { out.new ≡ sets out.old 0 (mask_of (length a.now) (near_at a.now t)) }
{
    words_into(a, ByteTest::Near(t), false, out);
}

// A word of c bits that are all alike.
fn uniform(bit: bool, c: usize) -> u64
    requires { (0 < c) × (c ≤ 64) }
    ensures { result ≡ (if bit then 2 ^ c - 1 else 0) }
{
    if bit {
        return ones(c);
    }
    0
}

// The mask of n slots that are all alike, to the front of out.
pub fn fill(n: usize, bit: bool, out: &mut [u64])
    requires { mask_len n ≤ length out.old }
    ensures { out.new ≡ sets out.old 0 (mask_of n (λ (i : ℕ). bit)) }
{
    let full = n / 64;
    let tail = n % 64;
    out[..full].fill(uniform(bit, 64));
    if 0 < tail {
        out[full] = uniform(bit, tail);
    }
}
