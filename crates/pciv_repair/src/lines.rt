// The list of changes: four numbers each, in a list of the caller.
ghost use Rattle.std.specs.Prelude.{◌≡◌, ℕ, ◌+◌, ◌-◌, ◌*◌, ◌≤◌, ◌<◌, not, [], ◌∷◌, map, length, get_or, eqb};
ghost use Rattle.std.proofs.lemmas.List.Edits.{sets};
ghost use Rattle.pciv_bytes.specs.Any.{any_from};
ghost use Rattle.pciv_bytes.specs.Ranges.{positions};
ghost use Rattle.pciv_format.specs.Check.{file_parts};
ghost use Rattle.pciv_repair_file.specs.Repaired.{is_kept, PartsGiven};
ghost use Rattle.pciv_repair.specs.Repair.{change_number, field_at, field_of, other_field, field_line, dropped_line};
ghost use Rattle.pciv_repair.specs.Repair.{was_set, set_line, numbers_of};

use crate::CORRECTION_LEN;
use pciv_bytes::little_endian::{get32, get64};
use pciv_format::{HEADER_LEN, INLINE_MAX, SENTINEL};
use pciv_repair_file::kept::lowest_after;

// The kinds of changes: a header field, an entry dropped, a byte set, the index. The list has their numbers.
#[derive(Clone, Copy)]
pub enum ChangeKind {
    Field = 1,
    Dropped = 2,
    Set = 3,
    Index = 4,
}

impl From<ChangeKind> for usize {
    ghost from_gives = { λ kind number. number ≡ change_number kind };

    fn from(kind: ChangeKind) -> usize {
        kind as usize
    }
}

// How many fields the header has.
const FIELDS: usize = 6;

// How many slots a block has.
const BLOCK: usize = 256;

// Writes a change as line number `line`, and answers the number of the next one.
pub(crate) fn put_line(
    list: &mut [usize],
    line: usize,
    kind: ChangeKind,
    place: usize,
    before: usize,
    after: usize,
) -> usize
    requires { 4 * (line + 1) ≤ length list.old }
    ensures next { result ≡ line + 1 }
    ensures list { list.new
        ≡ sets list.old (4 * line) (change_number kind ∷ place ∷ before ∷ after ∷ []) }
{
    let at = CORRECTION_LEN * line;
    list[at] = usize::from(kind);
    list[at + 1] = place;
    list[at + 2] = before;
    list[at + 3] = after;
    line + 1
}

// ---- header fields

// Where field i of the header stands: the first two have 4 bytes, the others 8.
fn field_at(i: usize) -> usize
    requires { i < 6 }
    ensures { result ≡ field_at i }
{
    if i < 2 { 4 * i } else { 8 * (i - 1) }
}

// The number in field i of the header.
fn field_of(file: &[u8], i: usize) -> usize
    requires { (40 ≤ length file.now) × (i < 6) }
    ensures { result ≡ field_of file.now i }
{
    if i < 2 {
        get32(file, 4 * i) as usize
    } else {
        get64(file, 8 * (i - 1))
    }
}

// How many fields differ in two headers.
pub(crate) fn count_fields(file: &[u8], new: &[u8]) -> usize
    requires { (40 ≤ length file.now) × (40 ≤ length new.now) }
    ensures { result ≡ length (positions (other_field file.now new.now) 0 6) }
{
    let mut count: usize = 0;
    for i in 0..FIELDS {
        count += (field_of(file, i) != field_of(new, i)) as usize;
    }
    count
}

// Lists the fields that differ, from the first line on, and answers the number of the next line.
pub(crate) fn put_fields(file: &[u8], new: &[u8], list: &mut [usize]) -> usize
    requires in_bounds { (40 ≤ length file.now) × (40 ≤ length new.now) }
    requires in_bounds_2 { 4 * length (positions (other_field file.now new.now) 0 6) ≤ length list.old }
    ensures next { result ≡ length (positions (other_field file.now new.now) 0 6) }
    ensures list { list.new
        ≡ sets list.old 0
        (numbers_of (map (field_line file.now new.now)
        (positions (other_field file.now new.now) 0 6))) }
{
    let mut line: usize = 0;
    for i in 0..FIELDS {
        let before = field_of(file, i);
        let after = field_of(new, i);
        if before != after {
            line = put_line(list, line, ChangeKind::Field, field_at(i), before, after);
        }
    }
    line
}

// ---- entries dropped

// Lists the entries that are dropped, from line number `from` on, and answers the number of the next line.
pub(crate) fn put_dropped(file: &[u8], n: usize, k: usize, list: &mut [usize], from: usize) -> usize
    requires parts_given { PartsGiven file.now n k }
    requires k_in_bounds { 4 * (from + length (positions (λ (j : ℕ). not (is_kept (file_parts file.now n k) j)) 0 k))
        ≤ length list.old }
    ensures next { result
        ≡ from + length (positions (λ (j : ℕ). not (is_kept (file_parts file.now n k) j)) 0 k) }
    ensures list { list.new
        ≡ sets list.old (4 * from)
        (numbers_of (map (dropped_line file.now n k)
        (positions (λ (j : ℕ). not (is_kept (file_parts file.now n k) j)) 0 k))) }
{
    let mut line = from;
    let mut lowest: usize = 0;
    for j in 0..k {
        let next = lowest_after(file, n, lowest, j);
        if next <= lowest {
            let slot = get64(file, HEADER_LEN + n + 12 * j);
            line = put_line(list, line, ChangeKind::Dropped, j, slot, 0);
        }
        lowest = next;
    }
    line
}

// ---- bytes set

// One of the bytes from `from` up to `to` differs. With no early exit the compiler compares many bytes at once.
fn any_other(a: &[u8], b: &[u8], from: usize, to: usize) -> bool
    requires { (from ≤ to) × (to ≤ length a.now) × (to ≤ length b.now) }
    ensures { result
        ≡ any_from (λ (i : ℕ). not (eqb (get_or a.now i 0) (get_or b.now i 0))) from (to - from) }
{
    let mut found = false;
    for i in from..to {
        found |= a[i] != b[i];
    }
    found
}

// Lists the slots from `start` up to `to` whose primary byte is 255 in `file` and not in `new`, from line number `from`
// on, and answers the number of the next line.
fn put_block(
    file: &[u8],
    new: &[u8],
    start: usize,
    to: usize,
    list: &mut [usize],
    from: usize,
) -> usize
    requires start_le_to { (start ≤ to) × (40 + to ≤ length file.now) × (40 + to ≤ length new.now) }
    requires start_in_bounds { 4 * (from + length (positions (was_set file.now new.now) start (to - start)))
        ≤ length list.old }
    ensures next { result
        ≡ from + length (positions (was_set file.now new.now) start (to - start)) }
    ensures list { list.new
        ≡ sets list.old (4 * from)
        (numbers_of (map set_line (positions (was_set file.now new.now) start (to - start)))) }
{
    let mut line = from;
    for slot in start..to {
        let at = HEADER_LEN + slot;
        if file[at] == SENTINEL && new[at] != SENTINEL {
            line = put_line(
                list,
                line,
                ChangeKind::Set,
                slot,
                SENTINEL as usize,
                INLINE_MAX as usize,
            );
        }
    }
    line
}

// Lists the slots whose primary byte is 255 in `file` and not in `new`, from line number `from` on, and answers the
// number of the next line. A block in which no byte differs is skipped.
pub(crate) fn put_set(file: &[u8], n: usize, new: &[u8], list: &mut [usize], from: usize) -> usize
    requires n_in_bounds { (40 + n ≤ length file.now) × (40 + n ≤ length new.now) }
    requires n_in_bounds_2 { 4 * (from + length (positions (was_set file.now new.now) 0 n)) ≤ length list.old }
    ensures next { result ≡ from + length (positions (was_set file.now new.now) 0 n) }
    ensures list { list.new
        ≡ sets list.old (4 * from)
        (numbers_of (map set_line (positions (was_set file.now new.now) 0 n))) }
{
    let mut line = from;
    let mut start: usize = 0;
    while start < n {
        let end = n.min(start + BLOCK);
        if any_other(file, new, HEADER_LEN + start, HEADER_LEN + end) {
            line = put_block(file, new, start, end, list, line);
        }
        start = end;
    }
    line
}
