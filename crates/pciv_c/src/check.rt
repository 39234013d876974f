// The header's sections "Check" and "Primary array".
ghost use Rattle.std.specs.Prelude.{◌≡◌};
ghost use Rattle.pciv_format.specs.Check.{counts_file};
ghost use Rattle.pciv_format.specs.Read.{check_file};
ghost use Rattle.pciv_c_cells.specs.Cells.{ToldFile, span_cells, span_length};

use pciv_c_cells::tell_file;
use pciv_check::{check, check_counts};
use pciv_format::HEADER_LEN;

#[unsafe(no_mangle)]
pub extern "C" fn pciv_check(
    file: &[u8],
    summary: &mut [usize; 6],
    refusal: &mut [usize; 3],
) -> usize
    ensures told { ToldFile (check_file 1 file.now)
        result summary.old summary.new refusal.new }
{
    tell_file(check(file), summary, refusal)
}

// The primary part as its start in the file and its length, since no reference is returned to C.
#[unsafe(no_mangle)]
pub extern "C" fn pciv_primary_span(file: &[u8], span: &mut [usize; 2]) -> usize
    ensures len { result ≡ span_length (counts_file 1 file.now) }
    ensures cells { span.new ≡ span_cells (counts_file 1 file.now) }
{
    let checked = check_counts(file, 1);
    match checked {
        Ok(s) => {
            let n = s.n;
            *span = [HEADER_LEN, n];
            n
        }
        Err(_) => {
            *span = [0, 0];
            0
        }
    }
}
