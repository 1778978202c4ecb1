// An export of fill, edits, print and read, made for tests and benchmarks only: the customer is offered one C call. Each function answers
// its number in document 01, 0 for done, and tells through references what else there is to answer. The parameters are what C hands over.
#![tactic(auto)]

ghost use Rattle.std.specs.Prelude.{◌≡◌};
ghost use Rattle.table.specs.Requests.{fill, edit_count, edit_pair};
ghost use Rattle.table.specs.Results.{called, answer, result as due};
ghost use Rattle.newick.specs.Results.{printed};
ghost use Rattle.figures.specs.Judge.{judged};
ghost use Rattle.exports.specs.Told.{answered, plan, text as text_of, reading};

use table::{Plan, Refusal};

#[unsafe(no_mangle)]
pub extern "C" fn buffermoss_test_fill(
    n: u32,
    counts: &[u32],
    divisors: &[u32],
    model: u32,
    limit: u64,
    sizes: &mut [u32],
    costs: &mut [u64],
    lefts: &mut [u16],
    cost: &mut u64,
    size: &mut u32,
) -> u32
    ensures { plan result cost.new size.new
        counts.now divisors.now sizes.new costs.new lefts.new
        ≡ due fill
        (called n counts.now divisors.now model limit sizes.old costs.old lefts.old) }
{
    let found = table::fill(n, counts, divisors, model, limit, sizes, costs, lefts);
    told(found, cost, size)
}

#[unsafe(no_mangle)]
pub extern "C" fn buffermoss_test_edit_count(
    n: u32,
    counts: &mut [u32],
    divisors: &[u32],
    model: u32,
    limit: u64,
    sizes: &mut [u32],
    costs: &mut [u64],
    lefts: &mut [u16],
    k: u32,
    value: u32,
    cost: &mut u64,
    size: &mut u32,
) -> u32
    ensures { plan result cost.new size.new
        counts.new divisors.now sizes.new costs.new lefts.new
        ≡ due (edit_count k value)
        (called n counts.old divisors.now model limit sizes.old costs.old lefts.old) }
{
    let found = table::edit_count(
        n, counts, divisors, model, limit, sizes, costs, lefts, k, value,
    );
    told(found, cost, size)
}

#[unsafe(no_mangle)]
pub extern "C" fn buffermoss_test_edit_pair(
    n: u32,
    counts: &[u32],
    divisors: &mut [u32],
    model: u32,
    limit: u64,
    sizes: &mut [u32],
    costs: &mut [u64],
    lefts: &mut [u16],
    i: u32,
    j: u32,
    value: u32,
    cost: &mut u64,
    size: &mut u32,
) -> u32
    ensures { plan result cost.new size.new
        counts.now divisors.new sizes.new costs.new lefts.new
        ≡ due (edit_pair i j value)
        (called n counts.now divisors.old model limit sizes.old costs.old lefts.old) }
{
    let found = table::edit_pair(
        n, counts, divisors, model, limit, sizes, costs, lefts, i, j, value,
    );
    told(found, cost, size)
}

#[unsafe(no_mangle)]
pub extern "C" fn buffermoss_test_print(
    n: u32,
    costs: &[u64],
    lefts: &[u16],
    text: &mut [u8],
    length: &mut usize,
) -> u32
    ensures { text_of result length.new text.new
        ≡ printed n costs.now lefts.now text.old }
{
    match newick::print(n, costs, lefts, text) {
        Ok(end) => {
            *length = end;
            0
        }
        Err(why) => {
            *length = 0;
            u32::from(why)
        }
    }
}

#[tactic(auto, unfolding(figures::specs::Entries::no_figures))]
#[unsafe(no_mangle)]
pub extern "C" fn buffermoss_test_read(
    text: &[u8],
    place: &mut usize,
    n: &mut u32,
    counts: &mut [u32; 15],
    divisors: &mut [u32; 105],
) -> u32
    ensures { reading result place.new n.new counts.new divisors.new
        ≡ judged text.now }
{
    match figures::read(text) {
        Ok(read) => {
            *place = 0;
            *n = read.n;
            let rows = read.counts;
            let pairs = read.divisors;
            *counts = rows;
            *divisors = pairs;
            0
        }
        Err(fault) => {
            *place = fault.at;
            *n = 0;
            *counts = [0; 15];
            *divisors = [0; 105];
            u32::from(fault.why)
        }
    }
}

// What a fill or an edit answers: its number, and through the references the plan's cost and size.
fn told(found: Result<Plan, Refusal>, cost: &mut u64, size: &mut u32) -> u32
    ensures { answered result cost.new size.new ≡ answer found }
{
    match found {
        Ok(plan) => {
            *cost = plan.cost;
            *size = plan.size;
            0
        }
        Err(why) => {
            *cost = 0;
            *size = 0;
            u32::from(why)
        }
    }
}
