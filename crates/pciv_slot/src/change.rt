// A slot moved into or out of overflow, in place: the entries behind its own move once, by one entry's length.
// What the buffer holds afterwards is defined in specs/Change.antt.
ghost use Rattle.std.specs.Prelude.{◌≡◌, ◌+◌, ◌-◌, ◌*◌, ◌≤◌, ◌<◌, length, replicate};
ghost use Rattle.std.proofs.lemmas.List.Edits.{sets};
ghost use Rattle.pciv_format.specs.Layout.{max_slots, file_len};
ghost use Rattle.pciv_slot.specs.Change.{entry_at, put_in, taken_out, changed, finished, Changes};

use pciv_build::{finish, put_entry};
use pciv_bytes::copies::fill_zero;
use pciv_bytes::moves::{move_down, move_up};
use pciv_format::{HEADER_LEN, SENTINEL};
use pciv_layout::file_len;

// The slot's byte becomes 255, and its entry stands before entry j of the k that there were.
#[tactic(auto, using(crate::proofs::ChangeLaws::put_in_front), unfolding(crate::specs::Change::put_in))]
fn put_in(buffer: &mut [u8], n: usize, k: usize, j: usize, slot: usize, distance: u32)
    requires { (slot < n) × (j ≤ k) × (entry_at n (k + 1) ≤ length buffer.old) }
    ensures { buffer.new ≡ put_in buffer.old n k j slot distance }
{
    buffer[HEADER_LEN + slot] = SENTINEL;
    let entries = HEADER_LEN + n;
    let at = entries + 12 * j;
    move_up(buffer, at, entries + 12 * k);
    put_entry(buffer, at, slot, distance);
}

// The slot's byte becomes its distance, and entry j of k, which was the slot's, is gone.
#[tactic(auto, unfolding(crate::specs::Change::taken_out))]
fn take_out(buffer: &mut [u8], n: usize, k: usize, j: usize, slot: usize, distance: u32)
    requires slot_lt_n { (slot < n) × (j < k) × (entry_at n k ≤ length buffer.old) }
    requires distance_bound { distance < 255 }
    ensures { buffer.new ≡ taken_out buffer.old n k j slot distance }
{
    buffer[HEADER_LEN + slot] = distance as u8;
    let entries = HEADER_LEN + n;
    move_down(buffer, entries + 12 * j, entries + 12 * (k - 1));
}

// The one or the other, by the distance.
#[tactic(auto, unfolding(crate::specs::Change::changed))]
pub(crate) fn change_entries(
    buffer: &mut [u8],
    n: usize,
    k: usize,
    j: usize,
    slot: usize,
    distance: u32,
)
    requires { Changes (length buffer.old) n k j slot distance }
    ensures { buffer.new ≡ changed buffer.old n k j slot distance }
{
    if distance < SENTINEL as u32 {
        take_out(buffer, n, k, j, slot, distance);
    } else {
        put_in(buffer, n, k, j, slot, distance);
    }
}

// Zeros from the new length up to the old one, where the file has got shorter.
fn clear_freed(buffer: &mut [u8], len: usize, old: usize)
    requires { old ≤ length buffer.old }
    ensures { buffer.new ≡ sets buffer.old len (replicate (old - len) 0) }
{
    if len < old {
        fill_zero(buffer, len, old);
    }
}

// The index of the `count` entries that stand there now, and zeros where the file of k entries was longer.
#[tactic(auto, unfolding(crate::specs::Change::finished))]
pub(crate) fn finish_change(buffer: &mut [u8], n: usize, k: usize, count: usize)
    requires n_le_max_slots { (n ≤ max_slots) × (k ≤ n) × (count ≤ n) }
    requires k_in_bounds { (file_len n k ≤ length buffer.old) × (file_len n count ≤ length buffer.old) }
    ensures { buffer.new ≡ finished buffer.old n k count }
{
    finish(buffer, n, count);
    clear_freed(buffer, file_len(n, count), file_len(n, k));
}
