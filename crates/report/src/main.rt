// Reads a file from standard input and prints the report on it (docs/FORMAT.md, "The report program").
#![tactic(auto)]

use pciv_report::{MAX_INPUT, MAX_TEXT, report};

// One byte more than the longest input, so that a longer one is seen to be too long.
const BUFFER_LEN: usize = MAX_INPUT + 1;

fn main() {
    let mut input = [0u8; BUFFER_LEN];
    let got = io::read_full(0, &mut input);
    let mut text = [0u8; MAX_TEXT];
    let answer = report(&input[..got], &mut text);
    if let Ok(len) = answer {
        io::write_all(1, &text[..len]);
    }
}
