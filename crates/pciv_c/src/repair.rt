// The header's section "Repair".
ghost use Rattle.std.specs.Prelude.{◌≡◌, length};
ghost use Rattle.pciv_repair.specs.Repair.{repair_outcome, repair_buffer, repair_list};
ghost use Rattle.pciv_c_cells.specs.Cells.{ToldRepaired};

use pciv_c_cells::tell_repaired;
use pciv_repair::repair;

#[unsafe(no_mangle)]
pub extern "C" fn pciv_repair(
    file: &[u8],
    n: usize,
    k: usize,
    out: &mut [u8],
    corrections: &mut [usize],
    summary: &mut [usize; 6],
    count: &mut usize,
    refusal: &mut [usize; 3],
) -> usize
    ensures told { ToldRepaired
        (repair_outcome file.now n k (length out.old) (length corrections.old))
        result summary.old summary.new count.old count.new
        refusal.new }
    ensures buffer { out.new
        ≡ repair_buffer file.now n k (length corrections.old) out.old }
    ensures corrections { corrections.new
        ≡ repair_list file.now n k (length out.old) corrections.old }
{
    tell_repaired(
        repair(file, n, k, out, corrections),
        summary,
        count,
        refusal,
    )
}
