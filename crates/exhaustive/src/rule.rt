// The row rule by hand (document 01, "Rows of the table"): from the numbers found in a table, whatever they are.
use crate::columns::{Row, Table};
use crate::figures::Edit;
use crate::jobs::Job;
use crate::sets::Set;
use crate::{sets, sizes};

// The table after an edit: the job's figures have changed, and the rule is applied in rising number to the sets that hold the relation, or
// both relations of the pair.
pub fn mended(job: &Job, edit: Edit) -> Table {
    let mut table = job.table;
    for set in 0..sets::sets(job.figures.n) {
        if sets::holds(set, edit.relations()) {
            let row = row(job, &table, set);
            table.set_row(set, row);
        }
    }
    table
}

// The row of `set` by the rule. A set of one has its count, 0 and 0. Of the usable splits the cheapest counts, and of several the one with
// the least left part.
fn row(job: &Job, table: &Table, set: Set) -> Row {
    let members = sets::members(set);
    let Some(lowest) = members.first() else {
        return Row::default();
    };
    let rest = set ^ sets::single(*lowest);
    if rest == 0 {
        return Row {
            size: job.figures.count(*lowest),
            cost: 0,
            left: 0,
        };
    }
    let size = sizes::joined(&job.figures, *lowest, rest, table.row(rest).size);
    (1..set)
        .filter(|left| sets::holds(set, *left))
        .filter_map(|left| split(job, table, left, set ^ left, size))
        .min_by_key(|row| row.cost)
        .unwrap_or(Row::unusable(size))
}

// The row that a split gives, if it is usable: neither a part's stored cost nor the total exceeds the limit. (Held or not, the sum of two
// usable parts and a charge is the same: it is far below 2^64.) The parameters say five things, and go together nowhere else.
fn split(job: &Job, table: &Table, left: Set, right: Set, size: u32) -> Option<Row> {
    let a = table.row(left);
    let b = table.row(right);
    if job.limit < a.cost || job.limit < b.cost {
        return None;
    }
    let charge = job.model.charge(a.size, b.size, size);
    let cost = a.cost.saturating_add(b.cost).saturating_add(charge);
    (cost <= job.limit).then_some(Row { size, cost, left })
}
