// The table of plans (document 01, "Rows of the table"): a fill, and edits that mend it after one figure changes.
#![tactic(auto)]

ghost use Rattle.std.specs.Prelude.{◌≡◌};
ghost use Rattle.table.specs.Requests.{fill, edit_count, edit_pair};
ghost use Rattle.table.specs.Results.{number_of, called, result_of, result as due};
ghost use Rattle.table.specs.declared.Refusal.TheVariants.{UnknownModel as Unknown};
ghost use Rattle.table.specs.Inner.{holding, folded, Fit};
ghost use Rattle.table.specs.Demands.{Demand2, Demand3, Keeps};

use charges::UnknownModel;
use relations::{Set, pairs};

// What is checked before anything is written.
mod checks;
// The rows of the table, and the one fold that fills and mends it.
mod rows;
// The size of a set.
mod sizes;
// The cheapest split of a set.
mod splits;

// Why a fill or an edit is refused, by its number (document 01, "Numbers answered").
#[derive(Clone, Copy, Debug, PartialEq, Eq)]
pub enum Refusal {
    // n is not 1 to 15.
    Relations = 1,
    // The row counts are not n, or the divisors not n(n-1)/2.
    Lengths = 2,
    // A divisor, stored or new, is 0.
    ZeroDivisor = 3,
    // The model is unknown.
    UnknownModel = 4,
    // The limit is above 2^60.
    HighLimit = 5,
    // A column is shorter than 2^n.
    ShortColumn = 6,
    // No tree is within the limit. The table is filled or mended all the same.
    NoPlan = 7,
    // The relation is not 1 to n, or the pair is of one relation.
    Name = 8,
}

impl From<Refusal> for u32 {
    ghost from_gives = { λ why number. number ≡ number_of why };

    fn from(why: Refusal) -> u32 {
        why as u32
    }
}

impl From<UnknownModel> for Refusal {
    ghost from_gives = { λ _ why. why ≡ Unknown };

    fn from(_model: UnknownModel) -> Refusal {
        Refusal::UnknownModel
    }
}

// The plan for all n relations.
#[derive(Clone, Copy, Debug, PartialEq, Eq)]
pub struct Plan {
    pub cost: u64,
    pub size: u32,
}

// What a call asks for besides the figures: how many relations, by which model, within which limit.
#[derive(Clone, Copy, Debug, PartialEq, Eq)]
struct Job {
    n: u32,
    model: u32,
    limit: u64,
}

// Every row below 2^n by the row rule, whatever the columns held. Here and in the edits the numbers come one by one, as document 01 and a C
// host have them.
pub fn fill(
    n: u32,
    counts: &[u32],
    divisors: &[u32],
    model: u32,
    limit: u64,
    sizes: &mut [u32],
    costs: &mut [u64],
    lefts: &mut [u16],
) -> Result<Plan, Refusal>
    ensures result { result_of result counts.now divisors.now sizes.new costs.new lefts.new
        ≡ due fill
        (called n counts.now divisors.now model limit sizes.old costs.old lefts.old) }
    ensures demand_2 { Demand2
        (called n counts.now divisors.now model limit sizes.old costs.old lefts.old)
        (result_of result counts.now divisors.now sizes.new costs.new lefts.new) }
    ensures keeps { Keeps fill
        (called n counts.now divisors.now model limit sizes.old costs.old lefts.old)
        (result_of result counts.now divisors.now sizes.new costs.new lefts.new) }
{
    let job = Job { n, model, limit };
    checks::check(job, counts, divisors, 1, sizes, costs, lefts)?;
    // Every set holds the empty set.
    let none = Set::EMPTY;
    work(job, counts, divisors, sizes, costs, lefts, none, none)
}

// Relation k's row count set to `value`, and the rows of the sets that hold k mended from the numbers found in the others, whatever they
// are.
pub fn edit_count(
    n: u32,
    counts: &mut [u32],
    divisors: &[u32],
    model: u32,
    limit: u64,
    sizes: &mut [u32],
    costs: &mut [u64],
    lefts: &mut [u16],
    k: u32,
    value: u32,
) -> Result<Plan, Refusal>
    ensures result { result_of result counts.new divisors.now sizes.new costs.new lefts.new
        ≡ due (edit_count k value)
        (called n counts.old divisors.now model limit sizes.old costs.old lefts.old) }
    ensures demand_3 { Demand3 (edit_count k value)
        (called n counts.old divisors.now model limit sizes.old costs.old lefts.old)
        (result_of result counts.new divisors.now sizes.new costs.new lefts.new) }
    ensures keeps { Keeps (edit_count k value)
        (called n counts.old divisors.now model limit sizes.old costs.old lefts.old)
        (result_of result counts.new divisors.now sizes.new costs.new lefts.new) }
{
    let job = Job { n, model, limit };
    checks::check(job, counts, divisors, 1, sizes, costs, lefts)?;
    if !relations::is_relation(n, k) {
        return Err(Refusal::Name);
    }
    counts[(k - 1) as usize] = value;
    let a = Set::one(k);
    work(job, counts, divisors, sizes, costs, lefts, a, Set::EMPTY)
}

// The divisor of the pair of relations i and j set to `value`, and the rows of the sets that hold both mended.
pub fn edit_pair(
    n: u32,
    counts: &[u32],
    divisors: &mut [u32],
    model: u32,
    limit: u64,
    sizes: &mut [u32],
    costs: &mut [u64],
    lefts: &mut [u16],
    i: u32,
    j: u32,
    value: u32,
) -> Result<Plan, Refusal>
    ensures result { result_of result counts.now divisors.new sizes.new costs.new lefts.new
        ≡ due (edit_pair i j value)
        (called n counts.now divisors.old model limit sizes.old costs.old lefts.old) }
    ensures demand_3 { Demand3 (edit_pair i j value)
        (called n counts.now divisors.old model limit sizes.old costs.old lefts.old)
        (result_of result counts.now divisors.new sizes.new costs.new lefts.new) }
    ensures keeps { Keeps (edit_pair i j value)
        (called n counts.now divisors.old model limit sizes.old costs.old lefts.old)
        (result_of result counts.now divisors.new sizes.new costs.new lefts.new) }
{
    let job = Job { n, model, limit };
    checks::check(job, counts, divisors, value, sizes, costs, lefts)?;
    if !checks::is_pair(n, i, j) {
        return Err(Refusal::Name);
    }
    divisors[pairs::place(i, j)] = value;
    let a = Set::one(i);
    let b = Set::one(j);
    work(job, counts, divisors, sizes, costs, lefts, a, b)
}

// What an accepted call has done: the rows of the sets that hold a and b mended, and the answer of the full set's row. The columns stay
// three slices, here and in `rows`: of a struct of `&mut` slices each contract would have to say, too, that they are still the same ones.
fn work(
    job: Job,
    counts: &[u32],
    divisors: &[u32],
    sizes: &mut [u32],
    costs: &mut [u64],
    lefts: &mut [u16],
    a: Set,
    b: Set,
) -> Result<Plan, Refusal>
    requires { Fit 1 (called job.n counts.now divisors.now job.model job.limit sizes.old costs.old lefts.old) }
    ensures { result_of result counts.now divisors.now sizes.new costs.new lefts.new
        ≡ folded (holding a.number b.number)
        (called job.n counts.now divisors.now job.model job.limit sizes.old costs.old lefts.old) }
{
    rows::mend(job, counts, divisors, sizes, costs, lefts, a, b);
    rows::plan(job.n, sizes, costs)
}
