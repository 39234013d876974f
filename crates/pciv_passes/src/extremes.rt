// What the smaller and the larger of every two bytes of two lists add up to: the bytes themselves, or 1 for each that
// passes a test. One pass yields both, with narrow counters and so block by block.
ghost use Rattle.std.specs.Prelude.{◌≡◌, ◌≤◌, length};
ghost use Rattle.pciv_passes.specs.Extremes.{ExtremeSums};
ghost use Rattle.pciv_passes.specs.declared.counts.Term.TheVariants.{Passing, Byte};

use crate::counts::{Term, Test, passing};

// The bytes that are taken at once: at most 255, so that a byte can hold their count.
const BLOCK: usize = 192;

// What the smaller bytes and the larger ones add up to.
#[derive(Clone, Copy)]
pub struct Extremes {
    pub least: usize,
    pub most: usize,
}

// How many of the smaller bytes and of the larger ones pass the test, in two blocks.
fn count_block(test: Test, a: &[u8], b: &[u8]) -> Extremes
    requires short { length a.now ≤ 255 }
    requires a_len { length a.now ≡ length b.now }
    ensures { ExtremeSums (Passing test) a.now b.now 0 (length a.now) result.least result.most }
{
    let mut least: u8 = 0;
    let mut most: u8 = 0;
    for i in 0..a.len() {
        least += passing(test, a[i].min(b[i]));
        most += passing(test, a[i].max(b[i]));
    }
    Extremes {
        least: usize::from(least),
        most: usize::from(most),
    }
}

// Their sums in two blocks.
fn sum_block(a: &[u8], b: &[u8]) -> Extremes
    requires short { length a.now ≤ 255 }
    requires a_len { length a.now ≡ length b.now }
    ensures { ExtremeSums Byte a.now b.now 0 (length a.now) result.least result.most }
{
    let mut least: u16 = 0;
    let mut most: u16 = 0;
    for i in 0..a.len() {
        least += u16::from(a[i].min(b[i]));
        most += u16::from(a[i].max(b[i]));
    }
    Extremes {
        least: usize::from(least),
        most: usize::from(most),
    }
}

// Either of the two. A constant `of` leaves no test in the compiled loop.
fn add_block(of: Term, a: &[u8], b: &[u8]) -> Extremes
    requires short { length a.now ≤ 255 }
    requires a_len { length a.now ≡ length b.now }
    ensures { ExtremeSums of a.now b.now 0 (length a.now) result.least result.most }
{
    match of {
        Term::Passing(test) => count_block(test, a, b),
        Term::Byte => sum_block(a, b),
    }
}

// The same over all bytes: whole blocks, and then what is left.
pub fn add_extremes(of: Term, a: &[u8], b: &[u8]) -> Extremes
    requires a_len { length a.now ≡ length b.now }
    requires a_len_bound { length a.now ≤ 4294967296 }
    ensures { ExtremeSums of a.now b.now 0 (length a.now)
        result.least result.most }
{
    let (xs, x_rest) = a.as_chunks::<BLOCK>();
    let (ys, y_rest) = b.as_chunks::<BLOCK>();
    let mut least: usize = 0;
    let mut most: usize = 0;
    for (x, y) in xs.iter().zip(ys) {
        let sums = add_block(of, x, y);
        least += sums.least;
        most += sums.most;
    }
    let rest = add_block(of, x_rest, y_rest);
    Extremes {
        least: least + rest.least,
        most: most + rest.most,
    }
}
