// Two lists of bytes, byte by byte: the smaller, the larger, the sum, at most 255, the difference, at least 0, or one of
// the last two that leaves zeros and makes none. At a constant operation the compiler works on many bytes at once.
ghost use Rattle.std.specs.Prelude.{◌≡◌, ◌+◌, ◌≤◌, length};
ghost use Rattle.std.proofs.lemmas.List.Edits.{sets};
ghost use Rattle.pciv_bytes.specs.Ranges.{table, sum_from};
ghost use Rattle.pciv_passes.specs.Pairs.{byte_op, pair_at, one_at, full_at};

// The bytes that are counted at once: at most 255, so that a byte can hold their count.
const BLOCK: usize = 192;

// What is done with two bytes. Lower and Raise are difference and sum that leave a first byte 0 as it is; another one
// is at least 1 afterwards.
#[derive(Clone, Copy)]
pub enum ByteOp {
    Min,
    Max,
    Add,
    Sub,
    Lower,
    Raise,
}

// The operation on two bytes.
pub(crate) fn byte_op(op: ByteOp, x: u8, y: u8) -> u8
    ensures { result ≡ byte_op op x y }
{
    match op {
        ByteOp::Min => x.min(y),
        ByteOp::Max => x.max(y),
        ByteOp::Add => x.saturating_add(y),
        ByteOp::Sub => x.saturating_sub(y),
        ByteOp::Lower => x.saturating_sub(y).max(1).min(x),
        ByteOp::Raise => if x == 0 { 0 } else { x.saturating_add(y) },
    }
}

// The operation on every two bytes, written from `at` on.
pub fn zip_into(op: ByteOp, a: &[u8], b: &[u8], out: &mut [u8], at: usize)
    requires a_len { length a.now ≡ length b.now }
    requires a_in_bounds { at + length a.now ≤ length out.old }
    ensures { out.new
        ≡ sets out.old at
        (table (pair_at op a.now b.now) 0 (length a.now)) }
{
    for i in 0..a.len() {
        out[at + i] = byte_op(op, a[i], b[i]);
    }
}

// The operation on every byte and x, written from `at` on.
pub fn map_into(op: ByteOp, a: &[u8], x: u8, out: &mut [u8], at: usize)
    requires { at + length a.now ≤ length out.old }
    ensures { out.new
        ≡ sets out.old at (table (one_at op a.now x) 0 (length a.now)) }
{
    for (i, y) in a.iter().enumerate() {
        out[at + i] = byte_op(op, *y, x);
    }
}

// How many results are 255 in two blocks.
fn count_full_block(op: ByteOp, a: &[u8], b: &[u8]) -> usize
    requires short { length a.now ≤ 255 }
    requires a_len { length a.now ≡ length b.now }
    ensures { result ≡ sum_from (full_at op a.now b.now) 0 (length a.now) }
{
    let mut sum: u8 = 0;
    for i in 0..a.len() {
        sum += u8::from(byte_op(op, a[i], b[i]) == 255);
    }
    usize::from(sum)
}

// How many results are 255.
pub fn count_full(op: ByteOp, a: &[u8], b: &[u8]) -> usize
    requires { length a.now ≡ length b.now }
    ensures { result ≡ sum_from (full_at op a.now b.now) 0 (length a.now) }
{
    let (xs, x_rest) = a.as_chunks::<BLOCK>();
    let (ys, y_rest) = b.as_chunks::<BLOCK>();
    let mut sum: usize = 0;
    for (x, y) in xs.iter().zip(ys) {
        sum += count_full_block(op, x, y);
    }
    sum + count_full_block(op, x_rest, y_rest)
}
