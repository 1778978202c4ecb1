// What a fill or an edit is called with, and what it leaves behind.
use crate::columns::{Plan, Table};
use crate::figures::{Edit, Figures};
use crate::prices::Model;

// Figures, a model and a limit, and the columns before the call.
#[derive(Clone, Copy, Debug, PartialEq, Eq)]
pub struct Job {
    pub figures: Figures,
    pub model: Model,
    pub limit: u64,
    pub table: Table,
}

// The answer and what is left behind. A refusal is its number in document 01: that number is what is held to account.
#[derive(Clone, Copy, Debug, PartialEq, Eq)]
pub struct Outcome {
    pub answer: Result<Plan, u32>,
    pub figures: Figures,
    pub table: Table,
}

impl Job {
    pub fn within(self, limit: u64) -> Job {
        Job { limit, ..self }
    }

    pub fn over(self, table: Table) -> Job {
        Job { table, ..self }
    }

    // The job once the edit has stored its value.
    pub fn changed(self, edit: Edit) -> Job {
        Job {
            figures: self.figures.changed(edit),
            ..self
        }
    }
}

// The refusals that the search and the walk by hand can ask for, by document 01's numbers.
#[derive(Clone, Copy, Debug, PartialEq, Eq)]
pub enum Refusal {
    NoPlan = 7,
    ShortRoom = 9,
    NoTree = 10,
}

impl From<Refusal> for u32 {
    fn from(why: Refusal) -> u32 {
        why as u32
    }
}
