// What is added, at one slot. Where one number is added, the second map is not looked at.
ghost use Rattle.std.specs.Prelude.{◌≡◌, ◌<◌};
ghost use Rattle.pciv_format.specs.Check.{file_parts, CheckedMap};
ghost use Rattle.pciv_arith_add.specs.Addition.{CursorOf, TakenOf, next_of};

use pciv_map::cursor::{Taken, next_slot, take_at};

// The distances of a second map, or one number.
#[derive(Clone, Copy)]
pub enum Addend {
    Map,
    Number(u32),
}

// What is added at a slot, where the cursor in the second map is at entry t.
pub fn take_addend(of: Addend, b: &[u8], n: usize, kb: usize, t: usize, slot: usize) -> Taken
    requires checked_map { CheckedMap b.now n kb }
    requires slot_lt_n { (slot < n) × CursorOf of (file_parts b.now n kb) t slot }
    ensures { TakenOf of (file_parts b.now n kb) slot result }
{
    match of {
        Addend::Map => take_at(b, n, kb, t, slot),
        Addend::Number(d) => Taken {
            distance: d,
            next: t,
        },
    }
}

// The next slot where what is added is in overflow by an entry, or n.
pub fn addend_slot(of: Addend, b: &[u8], n: usize, kb: usize, t: usize) -> usize
    requires { CheckedMap b.now n kb }
    ensures { result ≡ next_of of (file_parts b.now n kb) t }
{
    match of {
        Addend::Map => next_slot(b, n, kb, t),
        Addend::Number(_) => n,
    }
}
