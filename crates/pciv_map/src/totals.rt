// Totals of a checked map: the sum of all distances, alone and in a summary, and how many are not 0.
// Both take the primary bytes for distances; of those in overflow the sum then lacks what exceeds 255, which
// the entries tell, while for the count a byte 255 is as good as its distance.
ghost use Rattle.std.specs.Prelude.{◌≡◌, ℕ, ◌-◌, List};
ghost use Rattle.pciv_bytes.specs.Ranges.{sum_from};
ghost use Rattle.pciv_format.specs.Layout.{summarize, file_of, Limits};
ghost use Rattle.pciv_format.specs.Parts.{value_of};
ghost use Rattle.pciv_format.specs.Check.{file_parts, CheckedMap};
ghost use Rattle.pciv_format.specs.Read.{primary_part, readings};

use crate::entries::entry_distance;
use pciv_format::{Counts, HEADER_LEN, SENTINEL, Summary};
use pciv_layout::summarized;
use pciv_passes::counts::{count_byte, sum_bytes};

// What the distances in overflow have above the byte 255, all together.
fn excess_of(file: &[u8], n: usize, k: usize) -> usize
    requires { CheckedMap file.now n k }
    ensures { result ≡ sum_from (λ (j : ℕ). (file_parts file.now n k).distance j - 255) 0 k }
{
    let mut sum: usize = 0;
    for j in 0..k {
        sum += (entry_distance(file, n, j) - SENTINEL as u32) as usize;
    }
    sum
}

// The sum of all distances, in one pass over the primary bytes and one over the entries.
pub fn sum_of(file: &[u8], n: usize, k: usize) -> usize
    requires { CheckedMap file.now n k }
    ensures { result ≡ sum_from (value_of (file_parts file.now n k)) 0 n }
{
    let end = HEADER_LEN + n;
    sum_bytes(&file[HEADER_LEN..end]) + excess_of(file, n, k)
}

// The summary of a file, by its counts.
pub fn summary_of(file: &[u8], counts: Counts) -> Summary
    requires { CheckedMap file.now counts.n counts.k }
    ensures { result
        ≡ summarize counts (sum_from (value_of (file_parts file.now counts.n counts.k)) 0 counts.n) }
{
    let n = counts.n;
    let k = counts.k;
    summarized(counts, sum_of(file, n, k))
}

// How many bytes are not 0: as many as distances are not 0 in every map that has these primary bytes, whatever
// else its file says.
pub fn readings_of(bytes: &[u8]) -> usize
    ensures count { result ≡ readings bytes.now }
    ensures every { (xs : List ℕ) → Limits xs → primary_part (file_of xs) ≡ bytes.now
        → result ≡ readings xs }
{
    bytes.len() - count_byte(bytes, 0)
}
