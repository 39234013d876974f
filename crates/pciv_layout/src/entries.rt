// The test of an overflow entry, wherever it stands (docs/FORMAT.md, "Refusals", 6).
ghost use Rattle.std.specs.Prelude.{◌≡◌, length};
ghost use Rattle.pciv_format.specs.Layout.{at};
ghost use Rattle.pciv_format.specs.Parts.{wrong_entry};

use pciv_format::SENTINEL;

// An entry with this slot and distance is wrong; its slot may be `lowest` at the least.
#[tactic(auto, unfolding(pciv_format::specs::Parts::wrong_entry))]
pub fn wrong_entry(primary: &[u8], lowest: usize, slot: usize, distance: u32) -> bool
    ensures { result ≡ wrong_entry (length primary.now) (at primary.now) lowest slot distance }
{
    if primary.len() <= slot {
        return true;
    }
    if slot < lowest {
        return true;
    }
    if distance < SENTINEL as u32 {
        return true;
    }
    primary[slot] != SENTINEL
}
