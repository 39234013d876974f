// Masks of a checked map put right by its overflow entries, for a limit that every inline distance is below.
ghost use Rattle.std.specs.Prelude.{◌≡◌, Bool, List, ℕ, ◌≤◌, length};
ghost use Rattle.std.proofs.lemmas.List.Edits.{sets};
ghost use Rattle.pciv_format.specs.Check.{file_parts, CheckedMap};
ghost use Rattle.pciv_format.specs.Mask.{mask_len, mask_of};
ghost use Rattle.pciv_mask_threshold.specs.Select.{flipped_from};

use pciv_map::entries::{entry_distance, entry_slot};

// Flips the slot of each entry that is not below the limit, in whatever mask of n slots stands at the front of out.
pub(crate) fn flip_entries(file: &[u8], n: usize, k: usize, limit: u64, out: &mut [u64])
    requires checked_map { CheckedMap file.now n k }
    requires le_limit { (255 ≤ limit) × (mask_len n ≤ length out.old) }
    ensures { (d : List ℕ) (p : ℕ → Bool) → out.old ≡ sets d 0 (mask_of n p)
        → out.new ≡ sets d 0 (mask_of n (flipped_from (file_parts file.now n k) limit p)) }
{
    for j in 0..k {
        let slot = entry_slot(file, n, j);
        let distance = entry_distance(file, n, j);
        let w = slot / 64;
        out[w] ^= ((limit <= distance as u64) as u64) << (slot % 64);
    }
}
