// The slots that are in overflow in both of two checked maps: as many as their minimum has. A maximum has those of
// either map.
ghost use Rattle.std.specs.Prelude.{◌≡◌, ◌+◌};
ghost use Rattle.pciv_format.specs.Layout.{overflow_count};
ghost use Rattle.pciv_format.specs.Check.{file_parts};
ghost use Rattle.pciv_format.specs.declared.SlotOp.TheVariants.{Minimum};
ghost use Rattle.pciv_check.specs.Pair.{CheckedPair};
ghost use Rattle.pciv_arith_merge.specs.Merge.{combined_of};

use crate::primary::count_full_slots;
use pciv_format::{HEADER_LEN, SENTINEL};
use pciv_map::entries::entry_slot;
use pciv_passes::pairs::ByteOp;

// An entry takes as long as this many slots whose bytes are compared.
const ENTRY_COST: usize = 32;

// Their number, by the slots of the first map's entries.
fn count_shared(a: &[u8], b: &[u8], n: usize, ka: usize, kb: usize) -> usize
    requires { CheckedPair a.now b.now n ka kb }
    ensures { result ≡ overflow_count n (combined_of Minimum (file_parts a.now n ka) (file_parts b.now n kb)) }
{
    let mut count: usize = 0;
    for j in 0..ka {
        let slot = entry_slot(a, n, j);
        count += (b[HEADER_LEN + slot] == SENTINEL) as usize;
    }
    count
}

// Their number, by the entries of the map that has fewer, or by the bytes of all slots.
pub fn count_both(a: &[u8], b: &[u8], n: usize, ka: usize, kb: usize) -> usize
    requires { CheckedPair a.now b.now n ka kb }
    ensures { result ≡ overflow_count n (combined_of Minimum (file_parts a.now n ka) (file_parts b.now n kb)) }
{
    if n / ENTRY_COST < ka.min(kb) {
        return count_full_slots(ByteOp::Min, a, b, n, ka, kb);
    }
    if ka <= kb {
        return count_shared(a, b, n, ka, kb);
    }
    count_shared(b, a, n, kb, ka)
}
