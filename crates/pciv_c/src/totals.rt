// The header's section "Totals".
ghost use Rattle.pciv_format.specs.Read.{sum_outcome, readings_outcome};
ghost use Rattle.pciv_c_cells.specs.Cells.{ToldNumber};

use pciv_c_cells::tell_value;
use pciv_read::{readings, sum};

#[unsafe(no_mangle)]
pub extern "C" fn pciv_sum(file: &[u8], total: &mut usize, refusal: &mut [usize; 3]) -> usize
    ensures told { ToldNumber (sum_outcome file.now)
        result total.old total.new refusal.new }
{
    tell_value(sum(file), total, refusal)
}

#[unsafe(no_mangle)]
pub extern "C" fn pciv_readings(file: &[u8], count: &mut usize, refusal: &mut [usize; 3]) -> usize
    ensures told { ToldNumber (readings_outcome file.now)
        result count.old count.new refusal.new }
{
    tell_value(readings(file), count, refusal)
}
