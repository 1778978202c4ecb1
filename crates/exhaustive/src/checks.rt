// Calls of the real functions, each held against what the search or the rule by hand gives.
use crate::columns::{Plan, Table};
use crate::figures::{Edit, Figures};
use crate::jobs::{Job, Outcome, Refusal};
use crate::prices::MODELS;
use crate::search::Found;
use crate::tally::{Call, Tally};
use crate::{HIGHEST, ROOM, drawn, real, rule, search, sets, texts};

// The most relations with which every edit is searched for.
const MOST_EDITED: u32 = 5;

// How many damaged tables are printed.
const PRINTED: u64 = 400;

// What the room for a text holds before.
const FILL: u8 = b'.';

// All checks of some figures: under each model, fills within the highest limit, within the plan's own cost and within one less, and edits.
pub fn check_figures(tally: &mut Tally, figures: Figures, index: u32) {
    tally.add_figures();
    for model in MODELS {
        let job = Job {
            figures,
            model,
            limit: HIGHEST,
            table: drawn::damaged(u64::from(index)),
        };
        let found = search::find(&job);
        let cost = found.table.plan(figures.n).map_or(0, |plan| plan.cost);
        tally.add_trees(found.trees);
        check_fills(tally, job, &found, cost);
        check_edits(tally, job, index, cost);
    }
}

// Fills within the highest limit, within the plan's cost and, where there is less, within one less.
fn check_fills(tally: &mut Tally, job: Job, found: &Found, cost: u64) {
    check_fill(tally, job, found);
    check_fill(tally, job.within(cost), found);
    if let Some(less) = cost.checked_sub(1) {
        check_fill(tally, job.within(less), found);
    }
}

// A fill: every row, the answer and the text of the tree are the search's.
fn check_fill(tally: &mut Tally, job: Job, found: &Found) {
    let n = job.figures.n;
    let filled = real::fill(&job);
    let rows = found.within(n, job.limit);
    let agrees = filled == outcome(job.figures, rows, rows.plan(n));
    tally.add_call(Call::Fill, agrees);
    let printed = real::print(n, &filled.table, ROOM, FILL);
    let alone = Table {
        lefts: found.tree.lefts(),
        ..rows
    };
    let expected = texts::print(n, &alone, ROOM, FILL);
    tally.add_call(Call::Print, printed == expected);
}

// What a call has to leave behind.
fn outcome(figures: Figures, table: Table, plan: Option<Plan>) -> Outcome {
    Outcome {
        answer: plan.ok_or(u32::from(Refusal::NoPlan)),
        figures,
        table,
    }
}

// Every edit of the figures, on fresh tables and on damaged ones.
fn check_edits(tally: &mut Tally, job: Job, index: u32, cost: u64) {
    for number in 0..drawn::EDITS {
        if let Some(edit) = drawn::edit(&job.figures, number) {
            check_fresh_edits(tally, job, edit, cost);
            let seed = u64::from(index) * 1024 + u64::from(number);
            check_damaged_edits(tally, job, edit, seed);
        }
    }
}

// An edit of tables that are filled within the highest limit and within the old plan's cost. The new plan is searched for; with more than
// MOST_EDITED relations it is taken from a fill.
fn check_fresh_edits(tally: &mut Tally, job: Job, edit: Edit, cost: u64) {
    let changed = job.changed(edit);
    let n = changed.figures.n;
    let plan = if MOST_EDITED < n {
        real::fill(&changed).answer.ok()
    } else {
        tally.add_trees(search::trees_tried(sets::full(n)));
        Some(search::plan(&changed))
    };
    check_fresh_edit(tally, job, edit, plan);
    check_fresh_edit(tally, job.within(cost), edit, plan);
}

// An edit of a fresh table: the figures are changed, the columns are those of a fill of the changed figures, and the answer is the plan's.
fn check_fresh_edit(tally: &mut Tally, job: Job, edit: Edit, plan: Option<Plan>) {
    let filled = real::fill(&job);
    let edited = real::edit(&job.over(filled.table), edit);
    let changed = job.changed(edit);
    let refilled = real::fill(&changed);
    let within = plan.filter(|plan| plan.cost <= job.limit);
    let expected = outcome(changed.figures, refilled.table, within);
    tally.add_call(Call::FreshEdit, edited == expected);
}

// An edit of a damaged table, within three limits: the figures are changed, and the rows are those of the rule by hand.
fn check_damaged_edits(tally: &mut Tally, job: Job, edit: Edit, seed: u64) {
    let damaged = job.over(drawn::damaged(seed));
    for limit in drawn::limits(seed) {
        let job = damaged.within(limit);
        let changed = job.changed(edit);
        let mended = rule::mended(&changed, edit);
        let expected = outcome(changed.figures, mended, mended.plan(changed.figures.n));
        tally.add_call(Call::DamagedEdit, real::edit(&job, edit) == expected);
    }
}

// Damaged tables printed in all the room, in just enough, and in a byte less.
pub fn check_prints(tally: &mut Tally, n: u32) {
    let needed = texts::needed(n);
    for seed in 0..PRINTED {
        let damaged = drawn::damaged(seed);
        for length in [ROOM, needed, needed.saturating_sub(1)] {
            let printed = real::print(n, &damaged, length, FILL);
            let expected = texts::print(n, &damaged, length, FILL);
            tally.add_call(Call::Print, printed == expected);
        }
    }
}
