// Bytes moved within one buffer by 12 places, the length of an overflow entry. What is moved and where it goes overlap.
ghost use Rattle.std.specs.Prelude.{◌≡◌, ◌+◌, ◌-◌, ◌≤◌, length, take, drop};
ghost use Rattle.std.proofs.lemmas.List.Edits.{sets};

// The bytes from `from` up to `to`, 12 places towards the end: the last one first.
pub fn move_up(out: &mut [u8], from: usize, to: usize)
    requires { (from ≤ to) × (to + 12 ≤ length out.old) }
    ensures { out.new
        ≡ sets out.old (from + 12) (take (to - from) (drop from out.old)) }
{
    out.copy_within(from..to, from + 12);
}

// To the places from `from` up to `to`, the bytes that stand 12 places after them: the first one first.
pub fn move_down(out: &mut [u8], from: usize, to: usize)
    requires { (from ≤ to) × (to + 12 ≤ length out.old) }
    ensures { out.new
        ≡ sets out.old from (take (to - from) (drop (from + 12) out.old)) }
{
    out.copy_within(from + 12..to + 12, from);
}
