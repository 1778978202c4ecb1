// The cheapest tree of a set, by trying every tree.
use crate::columns::{Plan, Row, Table};
use crate::jobs::Job;
use crate::prices::Model;
use crate::sets::Set;
use crate::trees::Tree;
use crate::{columns, sets, sizes, trees};

// A tree, and what it costs. Nothing compares it as a whole, nor what else here has a list in it.
#[derive(Drop)]
struct Priced {
    cost: u64,
    tree: Tree,
}

// What the search finds of a job: the rows of its figures' sets within the highest limit, the cheapest tree of all relations, and how many
// trees were tried.
#[derive(Drop)]
pub struct Found {
    pub table: Table,
    pub tree: Tree,
    pub trees: u64,
}

// The cheapest of every tree of `set`, and of several the one that document 01's rule for ties picks.
fn cheapest(set: Set, model: Model, sizes: &[u32]) -> Priced {
    let members = sets::members(set);
    let mut best = Priced::grown(&members, 0, model, sizes);
    for number in 1..trees::number_of_trees(members.len()) {
        let other = Priced::grown(&members, number, model, sizes);
        if other.comes_before(&best) {
            best = other;
        }
    }
    best
}

impl Priced {
    fn grown(members: &[u32], number: usize, model: Model, sizes: &[u32]) -> Priced {
        let tree = trees::grown(members, number);
        let cost = tree.cost(model, sizes);
        Priced { cost, tree }
    }

    fn comes_before(&self, other: &Priced) -> bool {
        self.cost < other.cost || self.cost == other.cost && self.tree.comes_before(&other.tree)
    }
}

// The cheapest tree of every set of the figures' relations. Row 0 is zeros, and rows past the last set stay as in the job's table. The last
// set is the full one, so the last tree is that of all relations.
pub fn find(job: &Job) -> Found {
    let column = sizes::column(&job.figures);
    let mut table = job.table;
    table.set_row(0, Row::default());
    let mut tree = trees::grown(&[], 0);
    let mut tried = 0u64;
    for set in 1..sets::sets(job.figures.n) {
        let best = cheapest(set, job.model, &column);
        table.set_row(
            set,
            Row {
                size: columns::at(&column, set),
                cost: best.cost,
                left: best.tree.left_part(set).unwrap_or(0),
            },
        );
        tree = best.tree;
        tried = tried.saturating_add(trees_tried(set));
    }
    Found {
        table,
        tree,
        trees: tried,
    }
}

// How many trees of a set are tried.
pub fn trees_tried(set: Set) -> u64 {
    trees::number_of_trees(sets::count(set)) as u64
}

// The plan of all relations.
pub fn plan(job: &Job) -> Plan {
    let column = sizes::column(&job.figures);
    let full = sets::full(job.figures.n);
    Plan {
        cost: cheapest(full, job.model, &column).cost,
        size: columns::at(&column, full),
    }
}

impl Found {
    // The rows as they are within a limit: a set whose cheapest tree costs more has no usable split.
    pub fn within(&self, n: u32, limit: u64) -> Table {
        let mut table = self.table;
        for set in 0..sets::sets(n) {
            let row = table.row(set);
            if limit < row.cost {
                table.set_row(set, Row::unusable(row.size));
            }
        }
        table
    }
}
