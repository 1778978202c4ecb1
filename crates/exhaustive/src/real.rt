// The functions that are held against the search, called on copies.
ghost use Rattle.std.specs.Prelude.{◌≤◌};

use crate::columns::{Plan, Table};
use crate::figures::{Edit, Figures};
use crate::jobs::{Job, Outcome};
use crate::texts::Text;
use crate::{MOST, PAIRS, ROOM, figures};
use table::Refusal;

// A fill over a table that may hold anything.
pub fn fill(job: &Job) -> Outcome {
    let Figures {
        n,
        counts,
        divisors,
    } = job.figures;
    let mut table = job.table;
    let planned = table::fill(
        n,
        &counts[..relations(n)],
        &divisors[..pairs(n)],
        u32::from(job.model),
        job.limit,
        &mut table.sizes,
        &mut table.costs,
        &mut table.lefts,
    );
    Outcome {
        answer: answer_to(planned),
        figures: job.figures,
        table,
    }
}

// An edit of figures and table.
pub fn edit(job: &Job, edit: Edit) -> Outcome {
    let Figures {
        n,
        mut counts,
        mut divisors,
    } = job.figures;
    let mut table = job.table;
    let planned = edited(
        job,
        edit,
        &mut counts[..relations(n)],
        &mut divisors[..pairs(n)],
        &mut table,
    );
    Outcome {
        answer: answer_to(planned),
        figures: Figures {
            n,
            counts,
            divisors,
        },
        table,
    }
}

// The numbers go on one by one, as the table takes them.
fn edited(
    job: &Job,
    edit: Edit,
    counts: &mut [u32],
    divisors: &mut [u32],
    table: &mut Table,
) -> Result<table::Plan, Refusal> {
    match edit {
        Edit::Count { k, value } => table::edit_count(
            job.figures.n,
            counts,
            divisors,
            u32::from(job.model),
            job.limit,
            &mut table.sizes,
            &mut table.costs,
            &mut table.lefts,
            k,
            value,
        ),
        Edit::Pair { i, j, value } => table::edit_pair(
            job.figures.n,
            counts,
            divisors,
            u32::from(job.model),
            job.limit,
            &mut table.sizes,
            &mut table.costs,
            &mut table.lefts,
            i,
            j,
            value,
        ),
    }
}

// How many counts n relations have, and how many divisors.
fn relations(n: u32) -> usize
    ensures { result ≤ 7 }
{
    (n as usize).min(MOST)
}

fn pairs(n: u32) -> usize
    ensures { result ≤ 21 }
{
    figures::pairs(n).min(PAIRS)
}

// The answer of a real function as a plan of this program's own, or the number of its refusal.
fn answer_to(planned: Result<table::Plan, Refusal>) -> Result<Plan, u32> {
    let table::Plan { cost, size } = planned?;
    Ok(Plan { cost, size })
}

// A print into a room of this length, all of it `fill` before. More of the room is kept back, which has to stay as it was.
pub fn print(n: u32, table: &Table, length: usize, fill: u8) -> Text {
    let mut room = [fill; ROOM];
    let end = length.min(ROOM);
    let printed = newick::print(n, &table.costs, &table.lefts, &mut room[..end]);
    Text {
        answer: printed.map_err(u32::from),
        room,
    }
}
