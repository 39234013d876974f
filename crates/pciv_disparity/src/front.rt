// The beginning of a frame's file: its header and its primary array. A table of bytes, the primary bytes of the table's
// distances, makes the passes over a frame cheap.
ghost use Rattle.std.specs.Prelude.{◌≡◌, ◌+◌, ◌*◌, ◌≤◌, length};
ghost use Rattle.std.proofs.lemmas.List.Edits.{sets};
ghost use Rattle.pciv_bytes.specs.Ranges.{sum_from};
ghost use Rattle.pciv_bytes.specs.LittleEndian.{Bytes};
ghost use Rattle.pciv_bytes.specs.ByteAt.{byte_from};
ghost use Rattle.pciv_format.specs.Layout.{max_slots, primary, overflow_count, at};
ghost use Rattle.pciv_disparity.specs.Disparity.{frame_distance};
ghost use Rattle.pciv_disparity.specs.Frames.{bytes_of, high_of, front_outcome, front_buffer};

use pciv_build::begin;
use pciv_bytes::find::find_byte;
use pciv_bytes::little_endian::put16;
use pciv_format::{Counts, HEADER_LEN, Refusal, SENTINEL, UNINDEXED_MAX};
use pciv_layout::primary_byte;
use pciv_passes::counts::{count_byte, count_from};

// The primary byte of each entry of a table.
pub(crate) fn primary_bytes(table: &[u32; 256]) -> [u8; 256]
    ensures { result ≡ bytes_of table.now }
{
    let mut bytes: [u8; 256] = [0; 256];
    for d in 0..256 {
        let x = table[d];
        bytes[d] = primary_byte(x);
    }
    bytes
}

// 256 times each byte.
fn high_bytes(bytes: &[u8; 256]) -> [u16; 256]
    requires { Bytes bytes.now }
    ensures { result ≡ high_of bytes.now }
{
    let mut high: [u16; 256] = [0; 256];
    for d in 0..256 {
        high[d] = 256 * bytes[d] as u16;
    }
    high
}

// The bytes of two disparities as one number of two bytes.
fn byte_pair(bytes: &[u8; 256], high: &[u16; 256], x: u8, y: u8) -> usize
    requires bytes { Bytes bytes.now }
    requires high_value { high.now ≡ high_of bytes.now }
    ensures { result ≡ at bytes.now x + 256 * at bytes.now y }
{
    (bytes[x as usize] as u16 + high[y as usize]) as usize
}

// Writes the primary array, two bytes at once: a byte is looked up as fast as two bytes are stored.
fn put_primary(out: &mut [u8], frame: &[u8], bytes: &[u8; 256])
    requires frame_in_bounds { 40 + length frame.now ≤ length out.old }
    requires bytes { Bytes bytes.now }
    ensures { out.new ≡ sets out.old 40
        (primary (length frame.now) (frame_distance bytes.now frame.now)) }
{
    let n = frame.len();
    let high = high_bytes(bytes);
    let mut i = 0;
    while 2 <= n - i {
        put16(
            out,
            HEADER_LEN + i,
            byte_pair(bytes, &high, frame[i], frame[i + 1]),
        );
        i += 2;
    }
    if i < n {
        out[HEADER_LEN + i] = bytes[frame[i] as usize];
    }
}

// How many disparities of a frame are d or more.
fn count_at_least(frame: &[u8], d: usize) -> usize
    ensures { result ≡ sum_from (byte_from frame.now d) 0 (length frame.now) }
{
    let is_past = 255 < d;
    if is_past {
        return 0;
    }
    count_from(frame, d as u8)
}

// How many slots of a frame have the byte 255, one by one.
fn count_each(frame: &[u8], bytes: &[u8; 256]) -> usize
    requires frame_len_bound { length frame.now ≤ max_slots }
    requires bytes { Bytes bytes.now }
    ensures { result ≡ overflow_count (length frame.now)
        (frame_distance bytes.now frame.now) }
{
    let mut count: u32 = 0;
    for d in frame {
        count += (bytes[*d as usize] == SENTINEL) as u32;
    }
    count as usize
}

// The same. Where the disparities with byte 255 are those from one to another, as in every table that is filled here, two
// counts of larger ones tell it, which the compiler makes for many slots at once.
fn count_full(frame: &[u8], bytes: &[u8; 256]) -> usize
    requires frame_len_bound { length frame.now ≤ max_slots }
    requires bytes { Bytes bytes.now }
    ensures { result ≡ overflow_count (length frame.now)
        (frame_distance bytes.now frame.now) }
{
    let all: &[u8] = bytes;
    let first = find_byte(all, 0, 256, SENTINEL);
    let count = count_byte(all, SENTINEL);
    let end = first + count;
    if count_byte(&all[first..end], SENTINEL) == count {
        return count_at_least(frame, first) - count_at_least(frame, end);
    }
    count_each(frame, bytes)
}

// Header and primary array where the slots in overflow are counted first.
fn put_counted(out: &mut [u8], frame: &[u8], bytes: &[u8; 256]) -> Result<Counts, Refusal>
    requires frame_len_bound { length frame.now ≤ max_slots }
    requires bytes { Bytes bytes.now }
    ensures answer { result
        ≡ front_outcome bytes.now frame.now (length out.old) }
    ensures buffer { out.new
        ≡ front_buffer bytes.now frame.now out.old }
{
    let counts = begin(out, frame.len(), count_full(frame, bytes))?;
    put_primary(out, frame, bytes);
    Ok(counts)
}

// The same in a buffer that holds any file of so many slots: the bytes are written first, and those that are 255 counted.
fn put_unrefused(out: &mut [u8], frame: &[u8], bytes: &[u8; 256]) -> Result<Counts, Refusal>
    requires frame_len_bound { length frame.now ≤ max_slots }
    requires bytes { Bytes bytes.now }
    requires frame_in_bounds { 40 + 13 * length frame.now + 16 * 2048 ≤ length out.old }
    ensures answer { result
        ≡ front_outcome bytes.now frame.now (length out.old) }
    ensures buffer { out.new
        ≡ front_buffer bytes.now frame.now out.old }
{
    put_primary(out, frame, bytes);
    let n = frame.len();
    let end = HEADER_LEN + n;
    let k = count_byte(&out[HEADER_LEN..end], SENTINEL);
    begin(out, n, k)
}

// Writes header and primary array of a frame's map, and answers its counts; or refusal 12, with the buffer as it was.
pub(crate) fn put_front(out: &mut [u8], frame: &[u8], bytes: &[u8; 256]) -> Result<Counts, Refusal>
    requires frame_len_bound { length frame.now ≤ max_slots }
    requires bytes { Bytes bytes.now }
    ensures answer { result
        ≡ front_outcome bytes.now frame.now (length out.old) }
    ensures buffer { out.new
        ≡ front_buffer bytes.now frame.now out.old }
{
    if HEADER_LEN + 13 * frame.len() + 16 * UNINDEXED_MAX <= out.len() {
        return put_unrefused(out, frame, bytes);
    }
    put_counted(out, frame, bytes)
}
