// How many bytes pass a test, and the sum of bytes. Counters are narrow, so that the
// compiler counts many bytes at once, and so the bytes are taken block by block.
ghost use Rattle.std.specs.Prelude.{◌≡◌, ◌^◌, ◌≤◌, ◌<◌, length};
ghost use Rattle.pciv_bytes.specs.Ranges.{flag, sum_from};
ghost use Rattle.pciv_bytes.specs.ByteAt.{byte_at, byte_is, byte_from};
ghost use Rattle.pciv_passes.specs.Counts.{passes, test_at, term_at};

// A test of bytes: equal to the given one, or not below it.
#[derive(Clone, Copy)]
pub enum Test {
    Equal(u8),
    AtLeast(u8),
}

// What is added up: 1 for each byte that passes a test, or the bytes themselves.
#[derive(Clone, Copy)]
pub enum Term {
    Passing(Test),
    Byte,
}

// The bytes that are counted at once: at most 255, so that a byte can hold their count.
const BLOCK: usize = 192;

// 1 where a byte passes the test, else 0.
pub(crate) fn passing(test: Test, x: u8) -> u8
    ensures { result ≡ flag (passes test x) }
{
    match test {
        Test::Equal(y) => u8::from(x == y),
        Test::AtLeast(y) => u8::from(y <= x),
    }
}

// How many bytes of a block pass the test.
fn count_block(test: Test, block: &[u8]) -> usize
    requires { length block.now ≤ 255 }
    ensures { result ≡ sum_from (test_at test block.now) 0 (length block.now) }
{
    let mut sum: u8 = 0;
    for x in block {
        sum += passing(test, *x);
    }
    usize::from(sum)
}

// The sum of the bytes of a block.
fn sum_block(block: &[u8]) -> usize
    requires { length block.now ≤ 255 }
    ensures { result ≡ sum_from (byte_at block.now) 0 (length block.now) }
{
    let mut sum: u16 = 0;
    for x in block {
        sum += u16::from(*x);
    }
    usize::from(sum)
}

// Either of the two. A constant `of` leaves no test in the compiled loop.
fn add_block(of: Term, block: &[u8]) -> usize
    requires { length block.now ≤ 255 }
    ensures { result ≡ sum_from (term_at of block.now) 0 (length block.now) }
{
    match of {
        Term::Passing(test) => count_block(test, block),
        Term::Byte => sum_block(block),
    }
}

// The same over all bytes: whole blocks, and then what is left.
fn add_up(of: Term, a: &[u8]) -> usize
    requires { sum_from (term_at of a.now) 0 (length a.now) < 2 ^ 64 }
    ensures { result ≡ sum_from (term_at of a.now) 0 (length a.now) }
{
    let (blocks, rest) = a.as_chunks::<BLOCK>();
    let mut sum: usize = 0;
    for block in blocks {
        sum += add_block(of, block);
    }
    sum + add_block(of, rest)
}

// How many bytes of a are x.
pub fn count_byte(a: &[u8], x: u8) -> usize
    ensures { result ≡ sum_from (byte_is a.now x) 0 (length a.now) }
{
    add_up(Term::Passing(Test::Equal(x)), a)
}

// How many bytes of a are x or more.
pub fn count_from(a: &[u8], x: u8) -> usize
    ensures { result ≡ sum_from (byte_from a.now x) 0 (length a.now) }
{
    add_up(Term::Passing(Test::AtLeast(x)), a)
}

// The sum of the bytes of a.
pub fn sum_bytes(a: &[u8]) -> usize
    requires { length a.now ≤ 4294967296 }
    ensures { result ≡ sum_from (byte_at a.now) 0 (length a.now) }
{
    add_up(Term::Byte, a)
}
