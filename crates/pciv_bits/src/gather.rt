// The flags of 64 bytes in a word, set where a byte meets a test. The bytes are taken in sixteen lanes, which the
// compiler does at once; so the flags stand in the order of the lanes and not in that of the bytes.
ghost use Rattle.std.specs.Prelude.{◌≡◌, ◌+◌, ◌*◌, ◌<◌, ◌≤◌, length};
ghost use Rattle.pciv_bytes.specs.Ranges.{flag};
ghost use Rattle.pciv_format.specs.Mask.{is_near};
ghost use Rattle.pciv_bits.specs.Flags.{meets, is_met, spread, Gathered};
ghost use Rattle.pciv_bits.specs.declared.gather.ByteTest.TheVariants.{Below, Near};

use pciv_bytes::little_endian::get64;
use std::num::wrapping_sub_u8;

// A test of bytes: below a limit, or from 1 to t.
#[derive(Clone, Copy)]
pub(crate) enum ByteTest {
    Below(u8),
    Near(u8),
}

// The byte is from 1 to t: one less, where 0 comes to 255, it is below t.
fn is_near(x: u8, t: u8) -> bool
    ensures { result ≡ is_near t x }
{
    wrapping_sub_u8(x, 1) < t
}

// The byte meets the test.
pub(crate) fn is_met(test: ByteTest, x: u8) -> bool
    ensures { result ≡ meets test x }
{
    match test {
        ByteTest::Below(limit) => x < limit,
        ByteTest::Near(t) => is_near(x, t),
    }
}

// The weight of a flag, where it is set.
fn weigh(is_set: bool, weight: u8) -> u8
    ensures { (result ≡ flag is_set * weight) × (result ≤ weight) }
{
    if is_set { weight } else { 0 }
}

// The weight of a byte, where it is from 1 to t.
fn weigh_near(x: u8, t: u8, weight: u8) -> u8
    ensures { (result ≡ flag (is_near t x) * weight) × (result ≤ weight) }
{
    weigh(is_near(x, t), weight)
}

// The flags of four bytes, at every other bit: of those below the limit.
fn lane_below(a: &[u8], i: usize, limit: u8) -> u8
    requires { i + 48 < length a.now }
    ensures { result ≡ spread (is_met a.now (Below limit)) i }
{
    weigh(a[i] < limit, 1)
        + weigh(a[i + 16] < limit, 4)
        + weigh(a[i + 32] < limit, 16)
        + weigh(a[i + 48] < limit, 64)
}

// The same of those from 1 to t.
fn lane_near(a: &[u8], i: usize, t: u8) -> u8
    requires { i + 48 < length a.now }
    ensures { result ≡ spread (is_met a.now (Near t)) i }
{
    weigh_near(a[i], t, 1)
        + weigh_near(a[i + 16], t, 4)
        + weigh_near(a[i + 32], t, 16)
        + weigh_near(a[i + 48], t, 64)
}

// The flags of four bytes, by the test. It is the same for all lanes, so the compiler chooses once for all of them; with
// the choice in the test of a byte it would make one test of both, which is slower.
fn lane(a: &[u8], i: usize, test: ByteTest) -> u8
    requires { i + 48 < length a.now }
    ensures { result ≡ spread (is_met a.now test) i }
{
    match test {
        ByteTest::Below(limit) => lane_below(a, i, limit),
        ByteTest::Near(t) => lane_near(a, i, t),
    }
}

// Two words.
#[derive(Clone, Copy)]
pub(crate) struct Pair {
    pub(crate) first: u64,
    pub(crate) second: u64,
}

// The flags of the 128 bytes from i on, in two words: of the sixteen lanes of each, the last eight fill the bits that the
// others leave. (For one word alone the compiler would unroll the loop, and not take the lanes at once.)
pub(crate) fn gather(a: &[u8], i: usize, test: ByteTest) -> Pair
    requires { i + 128 ≤ length a.now }
    ensures { Gathered (is_met a.now test) i result.first × Gathered (is_met a.now test) (i + 64) result.second }
{
    let mut lanes: [u8; 32] = [0; 32];
    for j in 0..16 {
        lanes[j] = lane(a, i + j, test);
        lanes[16 + j] = lane(a, i + 64 + j, test);
    }
    Pair {
        first: (get64(&lanes, 0) | (get64(&lanes, 8) << 1)) as u64,
        second: (get64(&lanes, 16) | (get64(&lanes, 24) << 1)) as u64,
    }
}
