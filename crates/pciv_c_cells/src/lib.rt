// Answers, told to C (include/pciv.h). A pciv_refusal is three numbers, a pciv_summary six. A call answers the
// refusal's number, 0 when done, and always writes the refusal; a result is written only when the call is done
// (specs/Cells.antt).
#![tactic(auto)]

ghost use Rattle.std.specs.Prelude.{◌≡◌, ◌≤◌, length};
ghost use Rattle.pciv_c_cells.specs.Cells.{ToldNumber, ToldFile, ToldLocated, ToldRepaired, ToldCounts, ToldTable};
ghost use Rattle.pciv_c_cells.specs.Cells.{told_row, told_table, no_cells, cells_of};
ghost use Rattle.pciv_format.specs.Refusals.{number_of};
ghost use Rattle.pciv_format.specs.Check.{k_field};
ghost use Rattle.pciv_format.specs.Read.{origin_number};

use pciv_bundle::RowAnswer;
use pciv_bundle_records::{BundleCounts, MAX_FRAMES};
use pciv_bytes::little_endian::get64;
use pciv_disparity::TableAnswer;
use pciv_format::{HEADER_LEN, Located, Origin, Refusal, Summary};
use pciv_repair::Repaired;

// The call is done: no refusal is told, and 0 is its answer.
fn tell_done(refusal: &mut [usize; 3]) -> usize
    ensures code { result ≡ 0 }
    ensures cells { refusal.new ≡ no_cells }
{
    *refusal = [0, 0, 0];
    0
}

// The call is refused: its answer is the refusal's number.
fn tell_refused(why: Refusal, refusal: &mut [usize; 3]) -> usize
    ensures code { result ≡ number_of why.kind }
    ensures cells { refusal.new ≡ cells_of why }
{
    let number = usize::from(why.kind);
    *refusal = [number, why.map, why.place];
    number
}

pub fn tell_file(
    a: Result<Summary, Refusal>,
    summary: &mut [usize; 6],
    refusal: &mut [usize; 3],
) -> usize
    ensures told { ToldFile a
        result summary.old summary.new refusal.new }
{
    match a {
        Ok(s) => {
            *summary = [s.n, s.k, s.m, s.step, s.len, s.sum];
            tell_done(refusal)
        }
        Err(why) => tell_refused(why, refusal),
    }
}

// A result that goes to C as it is: a number, or a figure.
pub fn tell_value<T: Copy>(a: Result<T, Refusal>, cell: &mut T, refusal: &mut [usize; 3]) -> usize
    ensures told { ToldNumber a result cell.old cell.new refusal.new }
{
    match a {
        Ok(x) => {
            *cell = x;
            tell_done(refusal)
        }
        Err(r) => tell_refused(r, refusal),
    }
}

// The k of a file's header, by which C is told that a distance is inline; 0 where the file has no whole header.
pub fn header_k(file: &[u8]) -> usize
    ensures { 40 ≤ length file.now → result ≡ k_field file.now }
{
    if file.len() < HEADER_LEN {
        return 0;
    }
    get64(file, 16)
}

// The number that tells an origin: k, the count of the file's overflow entries, for inline.
fn origin_number(origin: Origin, k: usize) -> usize
    ensures { result ≡ origin_number k origin }
{
    match origin {
        Origin::Inline => k,
        Origin::Overflow(j) => j,
    }
}

pub fn tell_located(
    a: Result<Located, Refusal>,
    k: usize,
    distance: &mut u32,
    entry: &mut usize,
    refusal: &mut [usize; 3],
) -> usize
    ensures told { ToldLocated k a
        result distance.old distance.new entry.old entry.new
        refusal.new }
{
    match a {
        Ok(found) => {
            let origin = found.origin;
            *distance = found.distance;
            *entry = origin_number(origin, k);
            tell_done(refusal)
        }
        Err(r) => tell_refused(r, refusal),
    }
}

pub fn tell_repaired(
    a: Result<Repaired, Refusal>,
    summary: &mut [usize; 6],
    count: &mut usize,
    refusal: &mut [usize; 3],
) -> usize
    ensures told { ToldRepaired a
        result summary.old summary.new count.old count.new
        refusal.new }
{
    match a {
        Ok(repaired) => {
            let rebuilt = repaired.summary;
            *count = repaired.lines;
            *summary = [
                rebuilt.n,
                rebuilt.k,
                rebuilt.m,
                rebuilt.step,
                rebuilt.len,
                rebuilt.sum,
            ];
            tell_done(refusal)
        }
        Err(r) => tell_refused(r, refusal),
    }
}

pub fn tell_counts(
    a: Result<BundleCounts, Refusal>,
    slots: &mut usize,
    frames: &mut usize,
    refusal: &mut [usize; 3],
) -> usize
    ensures told { ToldCounts a
        result slots.old slots.new frames.old frames.new
        refusal.new }
{
    match a {
        Ok(c) => {
            *slots = c.slots;
            *frames = c.frames;
            tell_done(refusal)
        }
        Err(r) => tell_refused(r, refusal),
    }
}

pub fn tell_row(a: RowAnswer, row: &mut [u32; MAX_FRAMES], refusal: &mut [usize; 3]) -> usize
    ensures told { ToldNumber (told_row a.verdict a.distances)
        result row.old row.new refusal.new }
{
    match a.verdict {
        Ok(_) => {
            let distances = a.distances;
            *row = distances;
            tell_done(refusal)
        }
        Err(r) => tell_refused(r, refusal),
    }
}

// The table is written after a refusal too.
pub fn tell_table(a: TableAnswer, table: &mut [u32; 256], refusal: &mut [usize; 3]) -> usize
    ensures told { ToldTable (told_table a) a.table
        result table.new refusal.new }
{
    let verdict = a.verdict;
    let distances = a.table;
    *table = distances;
    match verdict {
        Ok(_) => tell_done(refusal),
        Err(r) => tell_refused(r, refusal),
    }
}
