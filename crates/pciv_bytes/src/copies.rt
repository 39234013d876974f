// Bytes written to a part of a buffer: copied, widened, or zeros.
ghost use Rattle.std.specs.Prelude.{◌≡◌, ◌+◌, ◌-◌, ◌≤◌, length, replicate};
ghost use Rattle.std.proofs.lemmas.List.Edits.{sets};

// Every byte as a 32-bit number, at the front of out.
pub fn widen(a: &[u8], out: &mut [u32])
    requires { length a.now ≤ length out.old }
    ensures { out.new ≡ sets out.old 0 a.now }
{
    for (i, x) in a.iter().enumerate() {
        out[i] = u32::from(*x);
    }
}

// All of src, from `at` on. For `copy_from_slice` the compiler calls memmove, which an archive without a C library may not have.
pub fn copy_bytes(src: &[u8], out: &mut [u8], at: usize)
    requires { at + length src.now ≤ length out.old }
    ensures { out.new ≡ sets out.old at src.now }
{
    for (i, x) in src.iter().enumerate() {
        out[at + i] = *x;
    }
}

// Zeros, from `from` up to `to`.
pub fn fill_zero(out: &mut [u8], from: usize, to: usize)
    requires { (from ≤ to) × (to ≤ length out.old) }
    ensures { out.new ≡ sets out.old from (replicate (to - from) 0) }
{
    out[from..to].fill(0);
}
