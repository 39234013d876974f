// Text in a buffer, a piece at a time. Each routine writes from the place `at` on and answers the place
// after what it wrote.
ghost use Rattle.std.specs.Prelude.{[], ◌∷◌, ◌+◌, ◌≤◌, ◌<◌, length};
ghost use Rattle.pciv_format.specs.Report.{decimal, field, line};
ghost use Rattle.pciv_report.specs.Text.{Put};

use pciv_bytes::copies::copy_bytes;

pub(crate) fn put_byte(out: &mut [u8], at: usize, b: u8) -> usize
    requires { at < length out.old }
    ensures { Put out.old at (b ∷ []) out.new result }
{
    out[at] = b;
    at + 1
}

pub(crate) fn put_word(out: &mut [u8], at: usize, word: &[u8]) -> usize
    requires { at + length word.now ≤ length out.old }
    ensures { Put out.old at word.now out.new result }
{
    copy_bytes(word, out, at);
    at + word.len()
}

// The digits of x, the highest first.
pub(crate) fn put_decimal(out: &mut [u8], at: usize, x: usize) -> usize
    requires { at + length (decimal x) ≤ length out.old }
    ensures { Put out.old at (decimal x) out.new result }
{
    let digit = b'0' + (x % 10) as u8;
    let is_last = x < 10;
    if is_last {
        put_byte(out, at, digit)
    } else {
        let at = put_decimal(out, at, x / 10);
        put_byte(out, at, digit)
    }
}

// A word, a space and a number, which has at most 20 digits.
pub(crate) fn put_field(out: &mut [u8], at: usize, word: &[u8], x: usize) -> usize
    requires { at + length word.now + 21 ≤ length out.old }
    ensures text { Put out.old at (field word.now x) out.new result }
    ensures most { result ≤ at + length word.now + 21 }
{
    let at = put_word(out, at, word);
    let at = put_byte(out, at, b' ');
    put_decimal(out, at, x)
}

// Such a field as a line.
pub(crate) fn put_line(out: &mut [u8], at: usize, word: &[u8], x: usize) -> usize
    requires { at + length word.now + 22 ≤ length out.old }
    ensures text { Put out.old at (line (field word.now x)) out.new result }
    ensures most { result ≤ at + length word.now + 22 }
{
    let at = put_field(out, at, word, x);
    put_byte(out, at, b'\n')
}
