// All distances of a checked map, written to the front of the caller's buffer.
ghost use Rattle.std.specs.Prelude.{◌≡◌, ◌≤◌, length};
ghost use Rattle.std.proofs.lemmas.List.Edits.{sets};
ghost use Rattle.pciv_bytes.specs.Ranges.{table};
ghost use Rattle.pciv_format.specs.Parts.{value_of};
ghost use Rattle.pciv_format.specs.Check.{file_parts, CheckedMap};

use crate::entries::{entry_distance, entry_slot};
use pciv_bytes::copies::widen;
use pciv_format::HEADER_LEN;

// The primary bytes first, which are the inline distances; then the entries' distances at their slots.
pub fn scan_into(file: &[u8], n: usize, k: usize, out: &mut [u32])
    requires checked_map { CheckedMap file.now n k }
    requires n_in_bounds { n ≤ length out.old }
    ensures { out.new
        ≡ sets out.old 0 (table (value_of (file_parts file.now n k)) 0 n) }
{
    let end = HEADER_LEN + n;
    widen(&file[HEADER_LEN..end], out);
    for j in 0..k {
        let slot = entry_slot(file, n, j);
        out[slot] = entry_distance(file, n, j);
    }
}
