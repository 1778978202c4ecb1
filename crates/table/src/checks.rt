// What is checked before anything is written (document 01, "Numbers answered").
ghost use Rattle.std.specs.Prelude.{◌≡◌, ◌^◌, ◌≤◌};
ghost use Rattle.relations.specs.Sets.{MOST, is_relation};
ghost use Rattle.table.specs.Figures.{figures};
ghost use Rattle.table.specs.Tables.{columns};
ghost use Rattle.table.specs.Requests.{is_pair};
ghost use Rattle.table.specs.Results.{called, short, bad_figures, unfit};
ghost use Rattle.table.specs.Inner.{found};

use crate::{Job, Refusal};
use relations::{MOST, Set, is_relation, pairs};

// "The limit is at most 2^60."
const HIGHEST: u64 = 1152921504606846976;

// Refusals 1 to 6, in order. `divisor` is the new divisor of an edit, and 1 where there is none. The figures come as two slices: they are
// `Figures` only where none of this refuses them.
pub fn check(
    job: Job,
    counts: &[u32],
    divisors: &[u32],
    divisor: u32,
    sizes: &[u32],
    costs: &[u64],
    lefts: &[u16],
) -> Result<(), Refusal>
    ensures { found result ≡ unfit divisor
        (called job.n counts.now divisors.now job.model job.limit sizes.now costs.now lefts.now) }
{
    check_figures(job.n, counts, divisors, divisor)?;
    // The charges know whether there is such a model.
    charges::charge(job.model, 0, 0, 0)?;
    if HIGHEST < job.limit {
        return Err(Refusal::HighLimit);
    }
    if is_short(job.n, sizes, costs, lefts) {
        return Err(Refusal::ShortColumn);
    }
    Ok(())
}

// Refusals 1 to 3, in order.
fn check_figures(n: u32, counts: &[u32], divisors: &[u32], divisor: u32) -> Result<(), Refusal>
    ensures { found result ≡ bad_figures n divisor (figures counts.now divisors.now) }
{
    if !is_relation(MOST, n) {
        return Err(Refusal::Relations);
    }
    // The first place past the pairs of n relations.
    let pairs = pairs::place(1, n + 1);
    if counts.len() != n as usize || divisors.len() != pairs {
        return Err(Refusal::Lengths);
    }
    if divisor == 0 || divisors.contains(&0) {
        return Err(Refusal::ZeroDivisor);
    }
    Ok(())
}

// Whether i and j name two of n relations.
#[tactic(auto, unfolding(crate::specs::Requests::is_pair))]
pub fn is_pair(n: u32, i: u32, j: u32) -> bool
    ensures { result ≡ is_pair n i j }
{
    is_relation(n, i) && is_relation(n, j) && i != j
}

// Whether a column has fewer rows than there are sets of n relations.
#[tactic(auto, using(std::proofs::lemmas::Bool::Decides::nat_tests, crate::proofs::Refusals::full_last), unfolding(crate::specs::Results::short))]
fn is_short(n: u32, sizes: &[u32], costs: &[u64], lefts: &[u16]) -> bool
    requires { n ≤ MOST }
    ensures { result ≡ short (columns sizes.now costs.now lefts.now) (2 ^ n) }
{
    let full = Set::all(n).number as usize;
    sizes.len() <= full || costs.len() <= full || lefts.len() <= full
}
