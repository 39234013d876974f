// Repair: the file that can be rebuilt from a primary array and overflow entries, with a list of every change
// (docs/FORMAT.md, "Repair"). What is to change is counted first, so that a call that is refused changes nothing.
#![tactic(auto)]

pub mod lines;

ghost use Rattle.std.specs.Prelude.{◌≡◌, ◌+◌, ◌*◌, ◌≤◌, ◌++◌, length, drop};
ghost use Rattle.std.proofs.lemmas.List.Edits.{sets};
ghost use Rattle.pciv_format.specs.Check.{file_parts};
ghost use Rattle.pciv_repair_file.specs.Repaired.{kept_entries, full_count, repaired_file, bytes_after, rebuilt_index, same};
ghost use Rattle.pciv_repair_file.specs.Repaired.{PartsGiven};
ghost use Rattle.pciv_repair.specs.Repair.{set_lines, index_lines, corrections, numbers_of, repair_outcome};
ghost use Rattle.pciv_repair.specs.Repair.{repair_buffer, repair_list};

use crate::lines::{ChangeKind, count_fields, put_dropped, put_fields, put_line, put_set};
use pciv_build::put_header;
use pciv_format::{HEADER_LEN, MAX_SLOTS, Refusal, RefusalKind, Summary};
use pciv_layout::index_len;
use pciv_layout::refusals::refuse;
use pciv_repair_file::index::same_index;
use pciv_repair_file::kept::{count_full, count_kept};
use pciv_repair_file::put_repaired;

// How many numbers a change is in the list.
pub const CORRECTION_LEN: usize = 4;

// What a repair tells: the summary of the rebuilt file, and how many changes were listed.
#[derive(Clone, Copy)]
pub struct Repaired {
    pub summary: Summary,
    pub lines: usize,
}

// How many changes there are, where `kept` entries are kept and `full` bytes are 255; `indexed` tells that the bytes
// behind the entries are the index.
fn count_lines(file: &[u8], n: usize, k: usize, kept: usize, full: usize, indexed: bool) -> usize
    requires parts_given { PartsGiven file.now n k }
    requires kept_value { (kept ≡ length (kept_entries (file_parts file.now n k))) × (full ≡ full_count file.now n) }
    requires indexed_value { indexed ≡ same (bytes_after file.now n k) (rebuilt_index file.now n k) }
    ensures { result ≡ length (corrections file.now n k) }
{
    let mut header: [u8; HEADER_LEN] = [0; HEADER_LEN];
    put_header(&mut header, n, kept);
    count_fields(file, &header) + (k - kept) + (full - kept) + !indexed as usize
}

// Lists the bytes that are set, from line number `from` on, and answers the number of the next line. Where there are as
// many bytes 255 as kept entries, there are none.
fn put_missing(
    file: &[u8],
    n: usize,
    k: usize,
    kept: usize,
    full: usize,
    new: &[u8],
    list: &mut [usize],
    from: usize,
) -> usize
    requires parts_given { PartsGiven file.now n k }
    requires kept_value { (kept ≡ length (kept_entries (file_parts file.now n k))) × (full ≡ full_count file.now n) }
    requires value { new.now ≡ repaired_file file.now n k ++ drop (length (repaired_file file.now n k)) new.now }
    requires k_in_bounds { 4 * (from + length (set_lines file.now n k)) ≤ length list.old }
    ensures next { result ≡ from + length (set_lines file.now n k) }
    ensures list { list.new
        ≡ sets list.old (4 * from) (numbers_of (set_lines file.now n k)) }
{
    if full <= kept {
        return from;
    }
    put_set(file, n, new, list, from)
}

// Lists the bytes behind the entries as line number `line`, unless they are the index.
fn put_index(
    file: &[u8],
    n: usize,
    k: usize,
    kept: usize,
    indexed: bool,
    list: &mut [usize],
    line: usize,
)
    requires parts_given { PartsGiven file.now n k }
    requires kept_value { kept ≡ length (kept_entries (file_parts file.now n k)) }
    requires indexed_value { indexed ≡ same (bytes_after file.now n k) (rebuilt_index file.now n k) }
    requires k_in_bounds { 4 * (line + length (index_lines file.now n k)) ≤ length list.old }
    ensures { list.new
        ≡ sets list.old (4 * line) (numbers_of (index_lines file.now n k)) }
{
    if indexed {
        return;
    }
    let after = HEADER_LEN + n + 12 * k;
    put_line(
        list,
        line,
        ChangeKind::Index,
        0,
        file.len() - after,
        16 * index_len(kept),
    );
}

// Lists every change, where the rebuilt file stands at the front of `new`.
fn put_lines(
    file: &[u8],
    n: usize,
    k: usize,
    kept: usize,
    full: usize,
    indexed: bool,
    new: &[u8],
    list: &mut [usize],
)
    requires parts_given { PartsGiven file.now n k }
    requires kept_value { (kept ≡ length (kept_entries (file_parts file.now n k))) × (full ≡ full_count file.now n) }
    requires indexed_value { indexed ≡ same (bytes_after file.now n k) (rebuilt_index file.now n k) }
    requires value { new.now ≡ repaired_file file.now n k ++ drop (length (repaired_file file.now n k)) new.now }
    requires k_in_bounds { 4 * length (corrections file.now n k) ≤ length list.old }
    ensures { list.new ≡ sets list.old 0 (numbers_of (corrections file.now n k)) }
{
    let dropped = put_fields(file, new, list);
    let set = put_dropped(file, n, k, list, dropped);
    let last = put_missing(file, n, k, kept, full, new, list, set);
    put_index(file, n, k, kept, indexed, list, last);
}

// The file and the list, or refusal 12.
fn rebuild(
    file: &[u8],
    n: usize,
    k: usize,
    out: &mut [u8],
    list: &mut [usize],
) -> Result<Repaired, Refusal>
    requires { PartsGiven file.now n k }
    ensures answer { result ≡ repair_outcome file.now n k (length out.old)
        (length list.old) }
    ensures buffer { out.new
        ≡ repair_buffer file.now n k (length list.old) out.old }
    ensures list { list.new
        ≡ repair_list file.now n k (length out.old) list.old }
{
    let kept = count_kept(file, n, k);
    let full = count_full(file, n);
    let indexed = same_index(file, n, k, kept);
    let lines = count_lines(file, n, k, kept, full, indexed);
    if list.len() < CORRECTION_LEN * lines {
        return refuse(RefusalKind::BufferTooSmall, 0, 0);
    }
    let summary = put_repaired(file, n, k, kept, full, out)?;
    put_lines(file, n, k, kept, full, indexed, out, list);
    Ok(Repaired { summary, lines })
}

// Rebuilds a file from the primary bytes and overflow entries that stand in `file` where n slots and k entries have
// them, writes it to the front of `out`, and lists every change at the front of `list`, CORRECTION_LEN numbers each:
// kind, place, the number before and after. Refusals: 3, 4 and 5 with map 1, then 12 for either of the two.
// A refused call changes nothing; bytes past the file and numbers past the list stay.
pub fn repair(
    file: &[u8],
    n: usize,
    k: usize,
    out: &mut [u8],
    list: &mut [usize],
) -> Result<Repaired, Refusal>
    ensures answer { result ≡ repair_outcome file.now n k (length out.old)
        (length list.old) }
    ensures buffer { out.new
        ≡ repair_buffer file.now n k (length list.old) out.old }
    ensures list { list.new
        ≡ repair_list file.now n k (length out.old) list.old }
{
    if MAX_SLOTS < n {
        return refuse(RefusalKind::TooManySlots, 1, 0);
    }
    if n < k {
        return refuse(RefusalKind::BadCounts, 1, 0);
    }
    if file.len() < HEADER_LEN + n + 12 * k {
        return refuse(RefusalKind::BadLength, 1, 0);
    }
    rebuild(file, n, k, out, list)
}
