// The report of a file as text (docs/FORMAT.md, "The report program"). Its meaning is defined in
// pciv_format's specs/Report.antt; src/text.rt writes the pieces.
#![tactic(auto)]

mod text;

ghost use Rattle.std.specs.Prelude.{◌≡◌, ◌≤◌, length};
ghost use Rattle.pciv_format.specs.Report.{map_lines, refused_line, report_text, report_outcome, report_buffer};
ghost use Rattle.pciv_report.specs.Text.{Put, max_text, deliver_outcome, deliver_buffer};

use crate::text::{put_field, put_line, put_word};
use pciv_check::check;
use pciv_format::{Refusal, RefusalKind, Summary};
use pciv_read::readings;

// The longest input that is reported on.
pub const MAX_INPUT: usize = 65536;

// No report is longer.
pub const MAX_TEXT: usize = 160;

// A buffer that is too short, or an input that is too long.
const TOO_LONG: Refusal = Refusal {
    kind: RefusalKind::BufferTooSmall,
    map: 0,
    place: 0,
};

// The six lines of a map, and how many bytes they are.
fn put_map(out: &mut [u8], s: Summary, sum: usize, count: usize) -> usize
    requires { max_text ≤ length out.old }
    ensures text { Put out.old 0 (map_lines s sum count) out.new result }
    ensures most { result ≤ max_text }
{
    let at = put_line(out, 0, b"slots", s.n);
    let at = put_line(out, at, b"far", s.k);
    let at = put_line(out, at, b"step", s.step);
    let at = put_line(out, at, b"index", s.m);
    let at = put_line(out, at, b"sum", sum);
    put_line(out, at, b"readings", count)
}

// The line of a refusal, and how many bytes it is.
fn put_refusal(out: &mut [u8], r: Refusal) -> usize
    requires { max_text ≤ length out.old }
    ensures text { Put out.old 0 (refused_line r) out.new result }
    ensures most { result ≤ max_text }
{
    let at = put_field(out, 0, b"refused", usize::from(r.kind));
    let at = put_field(out, at, b" map", r.map);
    put_line(out, at, b" place", r.place)
}

// A text to the front of the caller's buffer, and its length. Refusal: 12.
fn deliver(text: &[u8], out: &mut [u8]) -> Result<usize, Refusal>
    ensures answer { result ≡ deliver_outcome text.now (length out.old) }
    ensures buffer { out.new ≡ deliver_buffer text.now out.old }
{
    if out.len() < text.len() {
        return Err(TOO_LONG);
    }
    Ok(put_word(out, 0, text))
}

// The report on an input, and how many bytes it is.
fn put_report(out: &mut [u8], input: &[u8]) -> usize
    requires { max_text ≤ length out.old }
    ensures text { Put out.old 0 (report_text input.now) out.new result }
    ensures most { result ≤ max_text }
{
    let is_long = MAX_INPUT < input.len();
    if is_long {
        return put_refusal(out, TOO_LONG);
    }
    match check(input) {
        Ok(s) => put_map(out, s, s.sum, readings(input).unwrap_or(0)),
        Err(r) => put_refusal(out, r),
    }
}

// Writes the report on an input to the front of the caller's buffer and answers its length. An input of more
// than 65,536 bytes is reported as refused. Refusal: 12, where the buffer is shorter than the report.
pub fn report(input: &[u8], out: &mut [u8]) -> Result<usize, Refusal>
    ensures answer { result ≡ report_outcome input.now (length out.old) }
    ensures buffer { out.new ≡ report_buffer input.now out.old }
{
    let mut text = [0u8; MAX_TEXT];
    let len = put_report(&mut text, input);
    deliver(&text[..len], out)
}
