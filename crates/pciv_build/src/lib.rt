// A file written part by part (docs/FORMAT.md, "Writing"): what every routine that writes a file shares.
// `begin` refuses a buffer that is too small and writes the header; the routine writes its primary array and its
// overflow entries; `finish` adds the sparse index. The law `built` of proofs/BuildLaws.antt says that this is the file, and
// `built-sum` that what stands in the buffer has its sum (pciv_map::totals::summary_of).
#![tactic(auto)]

pub mod slots;

ghost use Rattle.std.specs.Prelude.{◌≡◌, ◌++◌, ◌+◌, ◌*◌, ◌≤◌, length};
ghost use Rattle.std.proofs.lemmas.List.Edits.{sets};
ghost use Rattle.pciv_bytes.specs.LittleEndian.{le};
ghost use Rattle.pciv_format.specs.Layout.{max_slots, file_len, header};
ghost use Rattle.pciv_build.specs.Build.{begin_outcome, begin_buffer, index_from};

use pciv_bytes::little_endian::{get64, put32, put64};
use pciv_format::{Counts, HEADER_LEN, MAGIC, Refusal, RefusalKind};
use pciv_layout::refusals::refuse;
use pciv_layout::{counts_of, file_len, index_len, index_step};

// Writes the header of a file with n slots and k overflow entries.
pub fn put_header(out: &mut [u8], n: usize, k: usize)
    requires { (k ≤ max_slots) × (40 ≤ length out.old) }
    ensures { out.new ≡ sets out.old 0 (header n k) }
{
    put64(out, 0, MAGIC);
    put64(out, 8, n);
    put64(out, 16, k);
    put64(out, 24, index_len(k));
    put64(out, 32, index_step(k));
}

// Begins a file: its header and its counts; or refusal 12, with the buffer as it was.
#[tactic(auto, unfolding(crate::specs::Build::begin_outcome, crate::specs::Build::begin_buffer))]
pub fn begin(out: &mut [u8], n: usize, k: usize) -> Result<Counts, Refusal>
    requires { (n ≤ max_slots) × (k ≤ n) }
    ensures answer { result ≡ begin_outcome n k (length out.old) }
    ensures buffer { out.new ≡ begin_buffer n k out.old }
{
    if out.len() < file_len(n, k) {
        return refuse(RefusalKind::BufferTooSmall, 0, 0);
    }
    put_header(out, n, k);
    Ok(counts_of(n, k))
}

// Writes an overflow entry, and answers the place after it.
pub fn put_entry(out: &mut [u8], at: usize, slot: usize, distance: u32) -> usize
    requires { at + 12 ≤ length out.old }
    ensures next { result ≡ at + 12 }
    ensures buffer { out.new ≡ sets out.old at (le 8 slot ++ le 4 distance) }
{
    put64(out, at, slot);
    put32(out, at + 8, distance);
    at + 12
}

// Writes an index entry: the slot of overflow entry number `entry`, and that number.
fn put_index_entry(out: &mut [u8], at: usize, slot: usize, entry: usize)
    requires { at + 16 ≤ length out.old }
    ensures { out.new ≡ sets out.old at (le 8 slot ++ le 8 entry) }
{
    put64(out, at, slot);
    put64(out, at + 8, entry);
}

// Finishes a file: the sparse index of the overflow entries that stand in the buffer.
pub fn finish(out: &mut [u8], n: usize, k: usize)
    requires { (n ≤ max_slots) × (k ≤ n) × (file_len n k ≤ length out.old) }
    ensures { out.new ≡ sets out.old (40 + n + 12 * k) (index_from out.old n k) }
{
    let step = index_step(k);
    let m = index_len(k);
    let entries = HEADER_LEN + n;
    let index = entries + 12 * k;
    for i in 0..m {
        let entry = i * step;
        let slot = get64(out, entries + 12 * entry);
        put_index_entry(out, index + 16 * i, slot, entry);
    }
}
