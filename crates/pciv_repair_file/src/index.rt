// The bytes behind the given overflow entries, compared with the sparse index of the kept ones.
ghost use Rattle.std.specs.Prelude.{◌≡◌, ◌+◌, ◌*◌, ◌≤◌, not, ◌||◌, length, eqb};
ghost use Rattle.pciv_bytes.specs.LittleEndian.{get};
ghost use Rattle.pciv_format.specs.Layout.{index_len};
ghost use Rattle.pciv_format.specs.Check.{file_parts};
ghost use Rattle.pciv_repair_file.specs.Repaired.{kept_entries, bytes_after, rebuilt_index, same, PartsGiven};

use crate::kept::lowest_after;
use pciv_bytes::little_endian::get64;
use pciv_format::HEADER_LEN;
use pciv_layout::{index_len, index_step};

// The index entry at `at` is not of this overflow entry with this slot.
fn other_entry(file: &[u8], at: usize, slot: usize, entry: usize) -> bool
    requires { at + 16 ≤ length file.now }
    ensures { result
        ≡ not (eqb (get 8 file.now at) slot) || not (eqb (get 8 file.now (at + 8)) entry) }
{
    get64(file, at) != slot || get64(file, at + 8) != entry
}

// As many bytes as the index has are the index.
fn same_entries(file: &[u8], n: usize, k: usize, kept: usize) -> bool
    requires parts_given { PartsGiven file.now n k }
    requires kept_value { kept ≡ length (kept_entries (file_parts file.now n k)) }
    requires k_len { length (bytes_after file.now n k) ≡ 16 * index_len kept }
    ensures { result ≡ same (bytes_after file.now n k) (rebuilt_index file.now n k) }
{
    let index = HEADER_LEN + n + 12 * k;
    let step = index_step(kept);
    let m = index_len(kept);
    let mut i: usize = 0;
    let mut entry: usize = 0;
    let mut lowest: usize = 0;
    for j in 0..k {
        if m <= i {
            break;
        }
        let next = lowest_after(file, n, lowest, j);
        if lowest < next {
            if entry == i * step {
                if other_entry(file, index + 16 * i, next - 1, entry) {
                    return false;
                }
                i += 1;
            }
            entry += 1;
        }
        lowest = next;
    }
    true
}

// The bytes behind the given entries are the index of the `kept` entries that are kept.
pub fn same_index(file: &[u8], n: usize, k: usize, kept: usize) -> bool
    requires parts_given { PartsGiven file.now n k }
    requires kept_value { kept ≡ length (kept_entries (file_parts file.now n k)) }
    ensures { result ≡ same (bytes_after file.now n k) (rebuilt_index file.now n k) }
{
    let index = HEADER_LEN + n + 12 * k;
    if file.len() - index != 16 * index_len(kept) {
        return false;
    }
    same_entries(file, n, k, kept)
}
