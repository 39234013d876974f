// The file that is rebuilt from a primary array and overflow entries alone (docs/FORMAT.md, "Repair"). Counts and index
// are derived; entries that are wrong are dropped, and a byte 255 without an entry becomes 254.
#![tactic(auto)]

pub mod index;
pub mod kept;

ghost use Rattle.std.specs.Prelude.{◌≡◌, ◌+◌, ◌≤◌, length};
ghost use Rattle.std.proofs.lemmas.List.Edits.{sets};
ghost use Rattle.pciv_bytes.specs.Ranges.{table};
ghost use Rattle.pciv_format.specs.Check.{file_parts};
ghost use Rattle.pciv_format.specs.Write.{file_into, file_buffer};
ghost use Rattle.pciv_repair_file.specs.Repaired.{kept_entries, repaired_parts, repaired_at, full_count, PartsGiven};

use crate::kept::{lowest_after, put_kept};
use pciv_build::{begin, finish};
use pciv_bytes::copies::copy_bytes;
use pciv_format::{HEADER_LEN, INLINE_MAX, Refusal, SENTINEL, Summary};
use pciv_map::totals::summary_of;
use pciv_passes::pairs::{ByteOp, map_into};

// The primary bytes, with 254 for each byte 255 whose slot has no kept entry: 254 for all of them first.
fn put_lowered(file: &[u8], n: usize, k: usize, out: &mut [u8])
    requires parts_given { PartsGiven file.now n k }
    requires n_in_bounds { 40 + n ≤ length out.old }
    ensures { out.new
        ≡ sets out.old 40 (table (repaired_parts (file_parts file.now n k)).byte 0 n) }
{
    map_into(
        ByteOp::Min,
        &file[HEADER_LEN..HEADER_LEN + n],
        INLINE_MAX,
        out,
        HEADER_LEN,
    );
    let mut lowest: usize = 0;
    for j in 0..k {
        let next = lowest_after(file, n, lowest, j);
        if lowest < next {
            out[HEADER_LEN + (next - 1)] = SENTINEL;
        }
        lowest = next;
    }
}

// The same; where there are as many bytes 255 as kept entries, each has one.
fn put_primary(file: &[u8], n: usize, k: usize, kept: usize, full: usize, out: &mut [u8])
    requires parts_given { PartsGiven file.now n k }
    requires kept_value { (kept ≡ length (kept_entries (file_parts file.now n k))) × (full ≡ full_count file.now n) }
    requires n_in_bounds { 40 + n ≤ length out.old }
    ensures { out.new
        ≡ sets out.old 40 (table (repaired_parts (file_parts file.now n k)).byte 0 n) }
{
    if full == kept {
        let end = HEADER_LEN + n;
        copy_bytes(&file[HEADER_LEN..end], out, HEADER_LEN);
    } else {
        put_lowered(file, n, k, out);
    }
}

// Writes the rebuilt file, where `kept` entries are kept and `full` bytes are 255. Refusal: 12.
pub fn put_repaired(
    file: &[u8],
    n: usize,
    k: usize,
    kept: usize,
    full: usize,
    out: &mut [u8],
) -> Result<Summary, Refusal>
    requires parts_given { PartsGiven file.now n k }
    requires kept_value { (kept ≡ length (kept_entries (file_parts file.now n k))) × (full ≡ full_count file.now n) }
    ensures answer { result ≡ file_into n (repaired_at file.now n k) (length out.old) }
    ensures buffer { out.new
        ≡ file_buffer (file_into n (repaired_at file.now n k) (length out.old)) n
        (repaired_at file.now n k) out.old }
{
    let counts = begin(out, n, kept)?;
    put_primary(file, n, k, kept, full, out);
    put_kept(file, n, k, kept, out);
    finish(out, n, kept);
    Ok(summary_of(out, counts))
}
