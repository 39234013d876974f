// One overflow entry of a file with n slots: its slot, 8 bytes, then the distance there, 4 bytes
// (docs/FORMAT.md, "Layout").
ghost use Rattle.std.specs.Prelude.{◌≡◌, ◌+◌, ◌*◌, ◌≤◌, length};
ghost use Rattle.pciv_bytes.specs.LittleEndian.{get};

use pciv_bytes::little_endian::{get32, get64};
use pciv_format::HEADER_LEN;

pub fn entry_slot(file: &[u8], n: usize, j: usize) -> usize
    requires { 40 + n + 12 * j + 12 ≤ length file.now }
    ensures { result ≡ get 8 file.now (40 + n + 12 * j) }
{
    get64(file, HEADER_LEN + n + 12 * j)
}

pub fn entry_distance(file: &[u8], n: usize, j: usize) -> u32
    requires { 40 + n + 12 * j + 12 ≤ length file.now }
    ensures { result ≡ get 4 file.now (40 + n + 12 * j + 8) }
{
    get32(file, HEADER_LEN + n + 12 * j + 8)
}
