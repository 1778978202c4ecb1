// The table and the printed tree held against a search over every bushy tree, for few relations. The search has nothing from the table: it
// grows the trees one by one, and works out sizes and charges by code of its own. What disagrees is counted.
#![tactic(auto)]

use crate::tally::Tally;
use std::io;

// Calls of the real functions and what they are held against.
mod checks;
// The columns of a table.
mod columns;
// Figures, edits and damaged tables.
mod drawn;
// Row counts and pair figures.
mod figures;
// What a call is given, and what it leaves behind.
mod jobs;
// The charge of a join.
mod prices;
// The real functions.
mod real;
// The row rule by hand.
mod rule;
// The cheapest tree of a set.
mod search;
// Sets as numbers.
mod sets;
// The size of a set.
mod sizes;
// What was covered.
mod tally;
// The text of a tree.
mod texts;
// Every tree.
mod trees;

// The most relations, also as a length.
const LAST: u32 = 7;

const MOST: usize = LAST as usize;

// Of so many relations: the pairs, the joins of a tree, and its nodes.
const PAIRS: usize = 21;

const JOINS: usize = 6;

const NODES: usize = 13;

// Four rows more than there are sets, and six bytes more than the longest text.
const ROWS: usize = 132;

const ROOM: usize = 32;

// "The limit is at most 2^60." No tree of 7 relations costs as much.
const HIGHEST: u64 = 1 << 60;

fn main(rt: HostRuntime) -> io::Result<()> {
    let mut disagreements = 0u64;
    for n in 1..=LAST {
        let tally = covered(n);
        println!(rt; "n = {n}: {tally}")?;
        disagreements = disagreements.saturating_add(tally.disagreements);
    }
    println!(rt; "{disagreements} disagreements")
}

// All that is tried with n relations.
fn covered(n: u32) -> Tally {
    let mut tally = Tally::default();
    for index in 0..figures_tried(n) {
        checks::check_figures(&mut tally, drawn::figures(n, index), index);
    }
    checks::check_prints(&mut tally, n);
    tally
}

// How many figures are tried with n relations: 48 have every kind of count with every kind of divisor, and 8 every kind of count. The time
// goes by the number of trees.
fn figures_tried(n: u32) -> u32 {
    match n {
        0..=4 => 48,
        5 => 24,
        6 => 16,
        7.. => 8,
    }
}
