// Rows and columns of eight by eight bits, exchanged.
ghost use Rattle.std.specs.Prelude.{◌≡◌, ℕ, ◌<◌};
ghost use Rattle.pciv_format.specs.Mask.{bit_at};
ghost use Rattle.pciv_bits.specs.Flags.{transposed};

// Three rounds exchange the squares of one, two and four bits beside the diagonal: in each some bits stay, some move
// down and some move up.
pub(crate) fn transpose(x: u64) -> u64
    ensures { (j : ℕ) → j < 64 → bit_at result j ≡ bit_at x (transposed j) }
{
    let y = (x & 0xAA55AA55AA55AA55)
        | ((x >> 7) & 0x00AA00AA00AA00AA)
        | ((x << 7) & 0x5500550055005500);
    let z = (y & 0xCCCC3333CCCC3333)
        | ((y >> 14) & 0x0000CCCC0000CCCC)
        | ((y << 14) & 0x3333000033330000);
    (z & 0xF0F0F0F00F0F0F0F) | ((z >> 28) & 0x00000000F0F0F0F0) | ((z << 28) & 0x0F0F0F0F00000000)
}
