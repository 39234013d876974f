// The check of a file's parts (docs/FORMAT.md, "Refusals"): refusals 6 to 8, first case first, of a file whose header and
// length are right.
// One pass over the overflow entries and a count of the bytes 255 decide refusals 6 and 7; only where the
// count is off does a walk over the slots look for the least one without an entry.
#![tactic(auto)]

ghost use Rattle.std.specs.Prelude.{◌≡◌};
ghost use Rattle.pciv_bytes.specs.Ranges.{first_below};
ghost use Rattle.pciv_format.specs.Layout.{index_len};
ghost use Rattle.pciv_format.specs.Parts.{bad_entry, bad_slot, EntriesRight};
ghost use Rattle.pciv_format.specs.Check.{file_parts, bad_index_entry, check_parts};
ghost use Rattle.pciv_check_parts.specs.Inside.{PartsInside};

use pciv_bytes::little_endian::{get32, get64};
use pciv_format::{Counts, HEADER_LEN, Refusal, RefusalKind, SENTINEL};
use pciv_layout::entries::wrong_entry;
use pciv_layout::refusals::refuse;
use pciv_layout::{counts_of, index_len, index_step};
use pciv_passes::counts::count_byte;

// The least overflow entry that is wrong, or k.
fn first_bad_entry(file: &[u8], n: usize, k: usize) -> usize
    requires { PartsInside file.now n k }
    ensures { result ≡ first_below (bad_entry (file_parts file.now n k)) k }
{
    let end = HEADER_LEN + n;
    let mut lowest: usize = 0;
    for j in 0..k {
        let at = end + 12 * j;
        let slot = get64(file, at);
        let distance = get32(file, at + 8);
        if wrong_entry(&file[HEADER_LEN..end], lowest, slot, distance) {
            return j;
        }
        lowest = slot + 1;
    }
    k
}

// The least slot with byte 255 and no overflow entry, or n, by a walk over all slots.
fn walk_slots(file: &[u8], n: usize, k: usize) -> usize
    requires parts_inside { PartsInside file.now n k }
    requires entries_right { EntriesRight (file_parts file.now n k) }
    ensures { result ≡ first_below (bad_slot (file_parts file.now n k)) n }
{
    let mut j: usize = 0;
    for i in 0..n {
        if file[HEADER_LEN + i] == SENTINEL {
            if k <= j {
                return i;
            }
            if get64(file, HEADER_LEN + n + 12 * j) != i {
                return i;
            }
            j += 1;
        }
    }
    n
}

// The same; where the bytes 255 are as many as the entries, each has one.
fn first_bad_slot(file: &[u8], n: usize, k: usize) -> usize
    requires parts_inside { PartsInside file.now n k }
    requires entries_right { EntriesRight (file_parts file.now n k) }
    ensures { result ≡ first_below (bad_slot (file_parts file.now n k)) n }
{
    let end = HEADER_LEN + n;
    if count_byte(&file[HEADER_LEN..end], SENTINEL) == k {
        return n;
    }
    walk_slots(file, n, k)
}

// The least index entry that is wrong, or the number of index entries.
fn first_bad_index_entry(file: &[u8], n: usize, k: usize) -> usize
    requires { PartsInside file.now n k }
    ensures { result ≡ first_below (bad_index_entry file.now n k) (index_len k) }
{
    let step = index_step(k);
    let m = index_len(k);
    for i in 0..m {
        let j = i * step;
        let at = HEADER_LEN + n + 12 * k + 16 * i;
        if get64(file, at) != get64(file, HEADER_LEN + n + 12 * j) {
            return i;
        }
        let is_wrong = get64(file, at + 8) != j;
        if is_wrong {
            return i;
        }
    }
    m
}

// Refusals 6 to 8, else the counts.
#[tactic(auto, unfolding(pciv_format::specs::Check::check_parts))]
pub fn check_parts(file: &[u8], map: usize, n: usize, k: usize) -> Result<Counts, Refusal>
    requires { PartsInside file.now n k }
    ensures { result ≡ check_parts map file.now n k }
{
    let entry = first_bad_entry(file, n, k);
    if entry < k {
        return refuse(RefusalKind::BadOverflowEntry, map, entry);
    }
    let slot = first_bad_slot(file, n, k);
    if slot < n {
        return refuse(RefusalKind::MissingOverflowEntry, map, slot);
    }
    let index = first_bad_index_entry(file, n, k);
    if index < index_len(k) {
        return refuse(RefusalKind::BadIndexEntry, map, index);
    }
    Ok(counts_of(n, k))
}
