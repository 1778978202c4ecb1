// From the text of a figures file to a plan: what the program and the C call share (document 01, "Numbers answered").
#![tactic(auto)]

ghost use Rattle.std.specs.Prelude.{◌≡◌, ◌≤◌, true};
ghost use Rattle.figures.specs.Written.{Proper};
ghost use Rattle.newick.specs.Results.{printed};
ghost use Rattle.table.specs.Requests.{fill};
ghost use Rattle.table.specs.Results.{called, result as due};
ghost use Rattle.planner.specs.Plans.{FEW, column, result_of, outcome, planned};
ghost use Rattle.planner.specs.Inner.{accepted, shown, after_fill, is_due};
ghost use Rattle.planner.specs.Best.{Demand2};

use figures::Figures;
use relations::pairs;

// The plan that is answered, and the refusals.
pub mod answers;
// What the program prints.
pub mod reports;

pub use answers::{Plan, Refusal};

// The most relations that are planned here: the columns are local, with a row for each set of so many.
const FEW: u32 = 11;

// Without a plan cost and size are 0.
const NO_PLAN: table::Plan = table::Plan { cost: 0, size: 0 };

// The cheapest plan for the figures that `text` says, written at the start of `tree`.
pub fn plan(text: &[u8], model: u32, limit: u64, tree: &mut [u8]) -> Result<Plan, Refusal>
    ensures result { result_of result tree.new ≡ planned text.now model limit tree.old }
    ensures demand_2 { Demand2 text.now model limit tree.old (result_of result tree.new) }
{
    let read = figures::read(text)?;
    if FEW < read.n {
        return Err(Refusal::Many);
    }
    plan_few(read, model, limit, tree)
}

// The plan for figures that were read, of few relations.
#[tactic(auto, using(crate::proofs::Fit::pairs_fit))]
fn plan_few(read: Figures, model: u32, limit: u64, tree: &mut [u8]) -> Result<Plan, Refusal>
    requires proper { Proper read }
    requires few { read.n ≤ FEW }
    ensures { result_of result tree.new ≡ outcome (accepted read) model limit tree.old }
{
    let relations = read.n as usize;
    let places = pairs::place(1, read.n + 1);
    fill_and_print(
        read.n,
        &read.counts[..relations],
        &read.divisors[..places],
        model,
        limit,
        tree,
    )
}

// A fill of local columns, and the tree printed from them. The columns are three, as they are lent (document 01,
// "Rows of the table"), and the numbers go on one by one, as table and print take them.
#[tactic(auto, unfolding(crate::specs::Inner::after_fill))]
fn fill_and_print(
    n: u32,
    counts: &[u32],
    divisors: &[u32],
    model: u32,
    limit: u64,
    tree: &mut [u8],
) -> Result<Plan, Refusal>
    requires { is_due
        (after_fill (due fill (called n counts.now divisors.now model limit column column column)) n tree.old).answer.number
        ≡ true }
    ensures { result_of result tree.new
        ≡ after_fill (due fill (called n counts.now divisors.now model limit column column column)) n tree.old }
{
    let mut sizes = [0; 2048];
    let mut costs = [0; 2048];
    let mut lefts = [0; 2048];
    match table::fill(
        n, counts, divisors, model, limit, &mut sizes, &mut costs, &mut lefts,
    ) {
        Ok(found) => print(n, &costs, &lefts, tree, found),
        // Of a table without a plan print answers 9 before it answers 7.
        Err(table::Refusal::NoPlan) => print(n, &costs, &lefts, tree, NO_PLAN),
        Err(table::Refusal::UnknownModel) => Err(Refusal::UnknownModel),
        // A fill of figures that were read refuses nothing else.
        Err(_) => Err(Refusal::HighLimit),
    }
}

// The tree of the plan that was found, printed: the numbers and columns go on as newick's print takes them.
fn print(
    n: u32,
    costs: &[u64],
    lefts: &[u16],
    tree: &mut [u8],
    found: table::Plan,
) -> Result<Plan, Refusal>
    requires { is_due (printed n costs.now lefts.now tree.old).answer.number ≡ true }
    ensures { result_of result tree.new ≡ shown found.cost found.size (printed n costs.now lefts.now tree.old) }
{
    match newick::print(n, costs, lefts, tree) {
        Ok(length) => Ok(Plan {
            cost: found.cost,
            size: found.size,
            length,
        }),
        Err(newick::Refusal::ShortText) => Err(Refusal::ShortText),
        // Of a table that was filled print refuses nothing else.
        Err(_) => Err(Refusal::NoPlan),
    }
}
