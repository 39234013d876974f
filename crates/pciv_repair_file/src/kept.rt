// The overflow entries that are kept: judged in file order, each against the last one kept before it.
ghost use Rattle.std.specs.Prelude.{◌≡◌, ◌+◌, ◌*◌, ◌≤◌, length};
ghost use Rattle.std.proofs.lemmas.List.Edits.{sets};
ghost use Rattle.pciv_format.specs.Layout.{max_slots};
ghost use Rattle.pciv_format.specs.Check.{file_parts};
ghost use Rattle.pciv_repair_file.specs.Repaired.{lowest_after, kept_entries, full_count, kept_bytes, PartsGiven};

use pciv_build::put_entry;
use pciv_bytes::copies::copy_bytes;
use pciv_bytes::little_endian::{get32, get64};
use pciv_format::{HEADER_LEN, SENTINEL};
use pciv_layout::entries::wrong_entry;
use pciv_passes::counts::count_byte;

// The least slot that the entry after entry j may have, where entry j may have `lowest`. It is above `lowest` exactly
// where entry j is kept, and then that entry's slot is the one before it.
pub fn lowest_after(file: &[u8], n: usize, lowest: usize, j: usize) -> usize
    requires { (n ≤ max_slots) × (40 + n + 12 * (j + 1) ≤ length file.now) }
    ensures { result ≡ lowest_after (file_parts file.now n (j + 1)) lowest j }
{
    let end = HEADER_LEN + n;
    let at = end + 12 * j;
    let slot = get64(file, at);
    let distance = get32(file, at + 8);
    if wrong_entry(&file[HEADER_LEN..end], lowest, slot, distance) {
        return lowest;
    }
    slot + 1
}

// How many entries are kept.
pub fn count_kept(file: &[u8], n: usize, k: usize) -> usize
    requires { PartsGiven file.now n k }
    ensures { result ≡ length (kept_entries (file_parts file.now n k)) }
{
    let mut kept: usize = 0;
    let mut lowest: usize = 0;
    for j in 0..k {
        let next = lowest_after(file, n, lowest, j);
        kept += (lowest < next) as usize;
        lowest = next;
    }
    kept
}

// How many primary bytes are 255.
pub fn count_full(file: &[u8], n: usize) -> usize
    requires { 40 + n ≤ length file.now }
    ensures { result ≡ full_count file.now n }
{
    count_byte(&file[HEADER_LEN..HEADER_LEN + n], SENTINEL)
}

// The kept entries, one after another.
fn put_some(file: &[u8], n: usize, k: usize, out: &mut [u8])
    requires parts_given { PartsGiven file.now n k }
    requires k_in_bounds { 40 + n + 12 * length (kept_entries (file_parts file.now n k)) ≤ length out.old }
    ensures { out.new
        ≡ sets out.old (40 + n) (kept_bytes (file_parts file.now n k)) }
{
    let mut place = HEADER_LEN + n;
    let mut lowest: usize = 0;
    for j in 0..k {
        let next = lowest_after(file, n, lowest, j);
        if lowest < next {
            let distance = get32(file, HEADER_LEN + n + 12 * j + 8);
            place = put_entry(out, place, next - 1, distance);
        }
        lowest = next;
    }
}

// The same; a copy where all k are kept.
pub fn put_kept(file: &[u8], n: usize, k: usize, kept: usize, out: &mut [u8])
    requires parts_given { PartsGiven file.now n k }
    requires kept_value { kept ≡ length (kept_entries (file_parts file.now n k)) }
    requires kept_in_bounds { 40 + n + 12 * kept ≤ length out.old }
    ensures { out.new
        ≡ sets out.old (40 + n) (kept_bytes (file_parts file.now n k)) }
{
    if kept == k {
        let start = HEADER_LEN + n;
        let end = start + 12 * k;
        copy_bytes(&file[start..end], out, start);
    } else {
        put_some(file, n, k, out);
    }
}
