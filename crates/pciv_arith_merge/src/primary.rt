// The primary bytes of a combination, from those of the two maps.
ghost use Rattle.std.specs.Prelude.{◌≡◌, ℕ, ◌+◌, ◌≤◌, length, eqb};
ghost use Rattle.std.proofs.lemmas.List.Edits.{sets};
ghost use Rattle.pciv_bytes.specs.Ranges.{flag, table, sum_from};
ghost use Rattle.pciv_format.specs.Check.{file_parts};
ghost use Rattle.pciv_check.specs.Pair.{CheckedPair};
ghost use Rattle.pciv_arith_merge.specs.Merge.{combined_bytes};

use pciv_format::HEADER_LEN;
use pciv_passes::pairs::{ByteOp, count_full, zip_into};

// Writes the operation on every two primary bytes where a file has its primary array.
pub fn put_primary(out: &mut [u8], op: ByteOp, a: &[u8], b: &[u8], n: usize, ka: usize, kb: usize)
    requires checked_pair { CheckedPair a.now b.now n ka kb }
    requires n_in_bounds { 40 + n ≤ length out.old }
    ensures { out.new ≡ sets out.old 40 (table (combined_bytes op (file_parts a.now n ka) (file_parts b.now n kb)) 0 n) }
{
    let end = HEADER_LEN + n;
    zip_into(
        op,
        &a[HEADER_LEN..end],
        &b[HEADER_LEN..end],
        out,
        HEADER_LEN,
    );
}

// How many slots have 255 as the operation on their primary bytes.
pub fn count_full_slots(op: ByteOp, a: &[u8], b: &[u8], n: usize, ka: usize, kb: usize) -> usize
    requires { CheckedPair a.now b.now n ka kb }
    ensures { result ≡ sum_from (λ (i : ℕ). flag (eqb (combined_bytes op (file_parts a.now n ka) (file_parts b.now n kb) i) 255)) 0 n }
{
    let end = HEADER_LEN + n;
    count_full(op, &a[HEADER_LEN..end], &b[HEADER_LEN..end])
}
