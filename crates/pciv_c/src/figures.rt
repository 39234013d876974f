// The header's section "Comparison figures".
ghost use Rattle.pciv_format.specs.Figures.{bray_curtis_outcome, jaccard_outcome};
ghost use Rattle.pciv_c_cells.specs.Cells.{ToldNumber};

use pciv_c_cells::tell_value;
use pciv_compare::{bray_curtis, jaccard};

#[unsafe(no_mangle)]
pub extern "C" fn pciv_bray_curtis(
    a: &[u8],
    b: &[u8],
    figure: &mut f64,
    refusal: &mut [usize; 3],
) -> usize
    ensures told { ToldNumber (bray_curtis_outcome a.now b.now)
        result figure.old figure.new refusal.new }
{
    tell_value(bray_curtis(a, b), figure, refusal)
}

#[unsafe(no_mangle)]
pub extern "C" fn pciv_jaccard(
    a: &[u8],
    b: &[u8],
    t: u32,
    figure: &mut f64,
    refusal: &mut [usize; 3],
) -> usize
    ensures told { ToldNumber (jaccard_outcome t a.now b.now)
        result figure.old figure.new refusal.new }
{
    tell_value(jaccard(a, b, t), figure, refusal)
}
