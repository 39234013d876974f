// A byte in a part of a slice: whether it occurs, and where first.
ghost use Rattle.std.specs.Prelude.{◌≡◌, ℕ, ◌-◌, ◌≤◌, length, get_or, eqb};
ghost use Rattle.pciv_bytes.specs.Any.{any_from};
ghost use Rattle.pciv_bytes.specs.Ranges.{first_from};

// One of the bytes from `from` up to `to` is x. With no early exit the compiler compares many bytes at once.
pub fn any_byte(a: &[u8], from: usize, to: usize, x: u8) -> bool
    requires { (from ≤ to) × (to ≤ length a.now) }
    ensures { result ≡ any_from (λ (i : ℕ). eqb (get_or a.now i 0) x) from (to - from) }
{
    let mut found = false;
    for y in &a[from..to] {
        found |= *y == x;
    }
    found
}

// The place of the first x from `from` up to `to`, or `to`.
pub fn find_byte(a: &[u8], from: usize, to: usize, x: u8) -> usize
    requires { (from ≤ to) × (to ≤ length a.now) }
    ensures { result ≡ first_from (λ (i : ℕ). eqb (get_or a.now i 0) x) from (to - from) }
{
    from + a[from..to]
        .iter()
        .position(|y| *y == x)
        .unwrap_or(to - from)
}
