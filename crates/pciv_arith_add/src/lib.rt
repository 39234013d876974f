// A checked map with something added to its distances, written as a file: the distances of a second map, slot by
// slot, or one number, which leaves zero distances at 0 (docs/FORMAT.md, "Arithmetic"). What is in overflow stays so,
// and more may come to it; the result's primary bytes tell where.
#![tactic(auto)]

pub mod addend;
mod large;
mod put;

ghost use Rattle.std.specs.Prelude.{◌≡◌, length};
ghost use Rattle.pciv_format.specs.Check.{file_parts};
ghost use Rattle.pciv_format.specs.Write.{map_into, file_buffer};
ghost use Rattle.pciv_check.specs.Pair.{CheckedPair};
ghost use Rattle.pciv_arith_add.specs.Addition.{Small, added_at};

use crate::addend::Addend;
use crate::large::first_too_large;
use crate::put::{count_added, put_entries, put_primary};
use pciv_build::{begin, finish};
use pciv_format::{Refusal, RefusalKind, Summary};
use pciv_layout::refusals::refuse;
use pciv_map::totals::summary_of;

// Writes the result's file to the front of out. Refusals: 11, then 12.
pub fn added_into(
    of: Addend,
    a: &[u8],
    b: &[u8],
    n: usize,
    ka: usize,
    kb: usize,
    out: &mut [u8],
) -> Result<Summary, Refusal>
    requires checked_pair { CheckedPair a.now b.now n ka kb }
    requires small { Small of }
    ensures answer { result ≡ map_into n (added_at of (file_parts a.now n ka) (file_parts b.now n kb)) (length out.old) }
    ensures buffer { out.new ≡ file_buffer (map_into n (added_at of (file_parts a.now n ka) (file_parts b.now n kb)) (length out.old)) n (added_at of (file_parts a.now n ka) (file_parts b.now n kb)) out.old }
{
    let large = first_too_large(of, a, b, n, ka, kb);
    if large < n {
        return refuse(RefusalKind::DistanceOverflow, 0, large);
    }
    let k = count_added(of, a, b, n, ka, kb);
    let counts = begin(out, n, k)?;
    put_primary(out, of, a, b, n, ka, kb);
    put_entries(out, of, a, b, n, ka, kb, k);
    finish(out, n, k);
    Ok(summary_of(out, counts))
}
