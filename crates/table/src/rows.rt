// Rows of the table and the one fold over them (document 01, "Rows of the table").
ghost use Rattle.std.specs.Prelude.{◌≡◌, ℕ, ◌^◌, ◌<◌, ◌≤◌, List, length};
ghost use Rattle.relations.specs.Sets.{MOST, all_of};
ghost use Rattle.table.specs.Figures.{figures};
ghost use Rattle.table.specs.Tables.{columns, row_at, Room, mend_row, mend_to};
ghost use Rattle.table.specs.Rule.{job_for, row_of};
ghost use Rattle.table.specs.Results.{called, planned, answer};
ghost use Rattle.table.specs.Inner.{holding, Fit};

use crate::sizes::Figures;
use crate::{Job, Plan, Refusal, splits};
use relations::Set;

// What the table holds of a set.
#[derive(Clone, Copy, Debug, PartialEq, Eq)]
pub struct Row {
    pub size: u32,
    pub cost: u64,
    pub left: u16,
}

// The row rule applied, in rising number, to the sets of relations 1 to n that hold both a and b.
pub fn mend(
    job: Job,
    counts: &[u32],
    divisors: &[u32],
    sizes: &mut [u32],
    costs: &mut [u64],
    lefts: &mut [u16],
    a: Set,
    b: Set,
)
    requires { Fit 1 (called job.n counts.now divisors.now job.model job.limit sizes.old costs.old lefts.old) }
    ensures { columns sizes.new costs.new lefts.new
        ≡ mend_to (row_of (job_for job.model job.limit) (figures counts.now divisors.now))
        (holding a.number b.number) (2 ^ job.n)
        (columns sizes.old costs.old lefts.old) }
{
    let rule = Rule {
        given: Figures { counts, divisors },
        model: job.model,
        limit: job.limit,
    };
    let full = Set::all(job.n).number;
    for s in 0..=full {
        let set = Set { number: s };
        rule.mend_row(sizes, costs, lefts, a, b, set);
    }
}

// The row rule of a call: the figures, the model and the limit that it goes by. A view, as `Figures` is.
#[derive(Clone, Copy)]
struct Rule<'a> {
    given: Figures<'a>,
    model: u32,
    limit: u64,
    ghost few: { length given.counts.now ≤ MOST },
    ghost limit_low: { limit ≤ 2 ^ 60 },
}

impl Rule<'_> {
    // The row of `set` written anew where it holds both a and b. The set comes by itself, here and below: one that is bound to its figures
    // would be made anew at each step.
    #[tactic(auto, using(crate::proofs::Mending::row_kept))]
    fn mend_row(
        self,
        sizes: &mut [u32],
        costs: &mut [u64],
        lefts: &mut [u16],
        a: Set,
        b: Set,
        set: Set,
    )
        requires within { set.number < 2 ^ length self.given.counts.now }
        requires room { Room (columns sizes.old costs.old lefts.old) (2 ^ length self.given.counts.now) }
        ensures { columns sizes.new costs.new lefts.new
            ≡ mend_row (row_of (job_for self.entry.model self.entry.limit) (figures self.entry.given.counts.now self.entry.given.divisors.now))
            (holding a.number b.number set.number)
            (columns sizes.old costs.old lefts.old) set.number }
    {
        if !holds_both(set, a, b) {
            return;
        }
        let row = self.row_of(sizes, costs, set);
        let at = set.number as usize;
        sizes[at] = row.size;
        costs[at] = row.cost;
        lefts[at] = row.left;
    }

    // The row of `set` by the rule, from the figures and from what the columns hold of its parts.
    fn row_of(self, sizes: &[u32], costs: &[u64], set: Set) -> Row
        requires within { set.number < 2 ^ length self.given.counts.now }
        requires columns_long { (set.number < length sizes.now) × (set.number < length costs.now) }
        ensures { (lefts : List ℕ) → result
            ≡ row_of (job_for self.entry.model self.entry.limit) (figures self.entry.given.counts.now self.entry.given.divisors.now)
            (columns sizes.now costs.now lefts) set.number }
    {
        if !set.is_larger() {
            let size = self.given.count(set.lowest());
            return Row {
                size,
                cost: 0,
                left: 0,
            };
        }
        let rest = set.rest().number as usize;
        let size = self.given.joined(sizes[rest], set);
        let best = splits::best_split(sizes, costs, self.model, self.limit, size, set);
        let left = best.left as u16;
        Row {
            size,
            cost: best.cost,
            left,
        }
    }
}

// Whether `set` holds both a and b.
#[tactic(auto, unfolding(crate::specs::Inner::holding))]
fn holds_both(set: Set, a: Set, b: Set) -> bool
    ensures { result ≡ holding a.number b.number set.number }
{
    set.holds(a) && set.holds(b)
}

// The answer that the full set's row gives.
#[tactic(auto, using(std::proofs::lemmas::Bool::Decides::nat_tests, crate::proofs::Refusals::full_last), unfolding(crate::specs::Results::planned, crate::specs::Tables::row_at))]
pub fn plan(n: u32, sizes: &[u32], costs: &[u64]) -> Result<Plan, Refusal>
    requires few { n ≤ MOST }
    requires columns_long { (2 ^ n ≤ length sizes.now) × (2 ^ n ≤ length costs.now) }
    ensures { (lefts : List ℕ) → answer result ≡ planned (row_at (columns sizes.now costs.now lefts) (all_of n)) }
{
    let full = Set::all(n).number as usize;
    let cost = costs[full];
    if cost == u64::MAX {
        return Err(Refusal::NoPlan);
    }
    let size = sizes[full];
    Ok(Plan { cost, size })
}
