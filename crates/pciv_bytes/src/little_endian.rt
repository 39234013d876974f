// Little-endian numbers at a place of a slice (docs/FORMAT.md, "Conventions").
// At a constant width the compiler turns each of them into a single load or store.
ghost use Rattle.std.specs.Prelude.{◌≡◌, ◌+◌, ◌≤◌, length};
ghost use Rattle.std.proofs.lemmas.List.Edits.{sets};
ghost use Rattle.pciv_bytes.specs.LittleEndian.{le, get};

// The number of the w bytes from `at` on.
fn get_le(b: &[u8], at: usize, w: usize) -> usize
    requires { (w ≤ 8) × (at + w ≤ length b.now) }
    ensures { result ≡ get w b.now at }
{
    let mut x: usize = 0;
    for i in 0..w {
        x |= usize::from(b[at + i]) << (8 * i);
    }
    x
}

// The number of the eight bytes from `at` on.
pub fn get64(b: &[u8], at: usize) -> usize
    requires { at + 8 ≤ length b.now }
    ensures { result ≡ get 8 b.now at }
{
    get_le(b, at, 8)
}

// The number of the four bytes from `at` on.
pub fn get32(b: &[u8], at: usize) -> u32
    requires { at + 4 ≤ length b.now }
    ensures { result ≡ get 4 b.now at }
{
    get_le(b, at, 4) as u32
}

// The number of the two bytes from `at` on.
pub fn get16(b: &[u8], at: usize) -> usize
    requires { at + 2 ≤ length b.now }
    ensures { result ≡ get 2 b.now at }
{
    get_le(b, at, 2)
}

// Writes x as eight bytes from `at` on.
pub fn put64(out: &mut [u8], at: usize, x: usize)
    requires { at + 8 ≤ length out.old }
    ensures { out.new ≡ sets out.old at (le 8 x) }
{
    out[at..at + 8].copy_from_slice(&x.to_le_bytes());
}

// Writes x as four bytes from `at` on.
pub fn put32(out: &mut [u8], at: usize, x: u32)
    requires { at + 4 ≤ length out.old }
    ensures { out.new ≡ sets out.old at (le 4 x) }
{
    out[at..at + 4].copy_from_slice(&x.to_le_bytes());
}

// Writes x, or as much of it as fits, as two bytes from `at` on.
pub fn put16(out: &mut [u8], at: usize, x: usize)
    requires { at + 2 ≤ length out.old }
    ensures { out.new ≡ sets out.old at (le 2 x) }
{
    let low = (x % 65536) as u16;
    out[at..at + 2].copy_from_slice(&low.to_le_bytes());
}
