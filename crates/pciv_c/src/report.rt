// The header's section "Report".
ghost use Rattle.std.specs.Prelude.{◌≡◌, length};
ghost use Rattle.pciv_format.specs.Report.{report_outcome, report_buffer};
ghost use Rattle.pciv_c_cells.specs.Cells.{ToldNumber};

use pciv_c_cells::tell_value;
use pciv_report::report;

#[unsafe(no_mangle)]
pub extern "C" fn pciv_report(
    input: &[u8],
    text: &mut [u8],
    count: &mut usize,
    refusal: &mut [usize; 3],
) -> usize
    ensures told { ToldNumber (report_outcome input.now (length text.old))
        result count.old count.new refusal.new }
    ensures buffer { text.new ≡ report_buffer input.now text.old }
{
    tell_value(report(input, text), count, refusal)
}
