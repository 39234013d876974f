// Comparison figures of two maps (docs/FORMAT.md, "Comparison figures"). What they answer is defined in pciv_format,
// specs/Figures.antt. Both are quotients of two whole numbers, divided once: of the weights of all smaller and of all
// larger distances the difference, over their sum for Bray-Curtis, and over the larger ones' for Jaccard.
#![tactic(auto)]

mod weigh;

ghost use Rattle.std.specs.Prelude.{◌≡◌, ◌+◌, ◌^◌, ◌≤◌};
ghost use Rattle.pciv_format.specs.Figures.{quotient, bray_curtis_outcome, jaccard_outcome};
ghost use Rattle.pciv_compare.specs.Figure.{divisor_of, figure_outcome};

use crate::weigh::{Weight, weigh};
use pciv_check::pair::check_pair;
use pciv_format::Refusal;

// The first number over the second, or 0.0 where that is 0. Neither conversion loses anything.
fn divide(p: usize, q: usize) -> f64
    requires { (p ≤ 2 ^ 53) × (q ≤ 2 ^ 53) }
    ensures { result ≡ quotient p q }
{
    if q == 0 {
        return 0.0;
    }
    p as f64 / q as f64
}

// What a figure is divided by, from the weights of all smaller and of all larger distances.
fn divisor(of: Weight, least: usize, most: usize) -> usize
    requires { least + most ≤ 2 ^ 53 }
    ensures { result ≡ divisor_of of least most }
{
    match of {
        Weight::Distance => least + most,
        Weight::From(_) => most,
    }
}

// The figure of a weight. Refusals: 1 to 8 of the first map, 1 to 8 of the second, then 10.
fn figure(of: Weight, a: &[u8], b: &[u8]) -> Result<f64, Refusal>
    ensures { result ≡ figure_outcome of a.now b.now }
{
    let pair = check_pair(a, b)?;
    let sums = weigh(of, a, b, pair.n, pair.ka, pair.kb);
    let least = sums.least;
    let most = sums.most;
    let q = divisor(of, least, most);
    Ok(divide(most - least, q))
}

// Bray-Curtis: the sum of all |a - b| over the sum of all a + b; 0.0 where that is 0.
// Refusals: 1 to 8 of the first map, 1 to 8 of the second, then 10.
pub fn bray_curtis(a: &[u8], b: &[u8]) -> Result<f64, Refusal>
    ensures answer { result ≡ bray_curtis_outcome a.now b.now }
{
    figure(Weight::Distance, a, b)
}

// Jaccard at t: the slots at t or above in exactly one map over those in either; 0.0 where there are none.
// Refusals: 1 to 8 of the first map, 1 to 8 of the second, then 10.
pub fn jaccard(a: &[u8], b: &[u8], t: u32) -> Result<f64, Refusal>
    ensures answer { result ≡ jaccard_outcome t a.now b.now }
{
    figure(Weight::From(t), a, b)
}
