// The slots in overflow, found by the primary bytes that stand in a buffer: each gets its overflow entry, whose
// distance the caller fills in. The bytes of a block of slots become the bits of words, which the compiler does many
// bytes at a time, and the walk goes from one set bit to the next.
ghost use Rattle.std.specs.Prelude.{◌≡◌, ◌+◌, ◌-◌, ◌*◌, ◌≤◌, min, length};
ghost use Rattle.std.proofs.lemmas.List.Edits.{sets};
ghost use Rattle.pciv_format.specs.Mask.{word};
ghost use Rattle.pciv_build.specs.Slots.{is_full, full_slots, blank_entries, TellFull};

use crate::put_entry;
use pciv_bits::flags::flags_into;
use pciv_format::{HEADER_LEN, SENTINEL};

// The words of a block.
const WORDS: usize = 64;

// The slots of a block: one for each bit.
const BLOCK: usize = 4096;

// Finds which of the slots from `from` up to `to` have primary byte 255, a bit for each.
fn find_full(words: &mut [u64], file: &[u8], from: usize, to: usize)
    requires { (from ≤ to) × (40 + to ≤ length file.now) × (to ≤ from + 64 * length words.old) }
    ensures { TellFull words.new file.now from to }
{
    flags_into(
        &file[HEADER_LEN + from..HEADER_LEN + to],
        SENTINEL,
        true,
        words,
    );
}

// Writes the entries of the slots that a word tells, those from `from` on and below `to`, and answers the place after
// them.
fn put_word(out: &mut [u8], place: usize, from: usize, to: usize, flags: u64) -> usize
    requires flags_value { flags ≡ word (is_full out.old) from (min 64 (to - from)) }
    requires from_le_to { (from ≤ to) × (40 + to ≤ place) }
    requires from_in_bounds { place + 12 * length (full_slots out.old from (min 64 (to - from))) ≤ length out.old }
    ensures next { result ≡ place + 12 * length (full_slots out.old from (min 64 (to - from))) }
    ensures buffer { out.new ≡ sets out.old place (blank_entries (full_slots out.old from (min 64 (to - from)))) }
{
    let mut next = place;
    let mut bits = flags;
    let mut slot = from;
    while 0 < bits {
        let zeros = bits.trailing_zeros() as usize;
        let full = slot + zeros;
        next = put_entry(out, next, full, SENTINEL as u32);
        bits = (bits >> zeros) >> 1;
        slot = full + 1;
    }
    next
}

// The same for all words of a block.
fn put_words(out: &mut [u8], place: usize, from: usize, to: usize, words: &[u64]) -> usize
    requires tell_full { TellFull words.now out.old from to }
    requires from_le_to { (from ≤ to) × (40 + to ≤ place) × (to ≤ from + 64 * length words.now) }
    requires from_in_bounds { place + 12 * length (full_slots out.old from (to - from)) ≤ length out.old }
    ensures next { result ≡ place + 12 * length (full_slots out.old from (to - from)) }
    ensures buffer { out.new ≡ sets out.old place (blank_entries (full_slots out.old from (to - from))) }
{
    let mut next = place;
    for w in 0..(to - from).div_ceil(64) {
        next = put_word(out, next, from + 64 * w, to, words[w]);
    }
    next
}

// Writes the entries of those slots from `from` up to `to`, a block at most, whose primary byte is 255, and answers the
// place after them.
fn put_block(out: &mut [u8], place: usize, from: usize, to: usize) -> usize
    requires from_le_to { (from ≤ to) × (to ≤ from + 4096) × (40 + to ≤ place) }
    requires from_in_bounds { place + 12 * length (full_slots out.old from (to - from)) ≤ length out.old }
    ensures next { result ≡ place + 12 * length (full_slots out.old from (to - from)) }
    ensures buffer { out.new ≡ sets out.old place (blank_entries (full_slots out.old from (to - from))) }
{
    let mut words: [u64; WORDS] = [0; WORDS];
    find_full(&mut words, out, from, to);
    put_words(out, place, from, to, &words)
}

// Writes an entry with distance 255 for each slot whose primary byte is 255.
pub fn put_slots(out: &mut [u8], n: usize)
    requires { 40 + n + 12 * length (full_slots out.old 0 n) ≤ length out.old }
    ensures { out.new ≡ sets out.old (40 + n) (blank_entries (full_slots out.old 0 n)) }
{
    let whole = n / BLOCK;
    let mut place = HEADER_LEN + n;
    for b in 0..whole {
        place = put_block(out, place, BLOCK * b, BLOCK * b + BLOCK);
    }
    put_block(out, place, BLOCK * whole, n);
}
