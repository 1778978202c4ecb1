// Row counts and pair figures (document 01, "One numbering").
use crate::sets::Set;
use crate::{MOST, PAIRS, sets};

// The figures of relations 1 to n; places past theirs hold anything. Arrays, so that nothing is on the heap.
#[derive(Clone, Copy, Debug, PartialEq, Eq)]
pub struct Figures {
    pub n: u32,
    pub counts: [u32; MOST],
    pub divisors: [u32; PAIRS],
}

// What an edit changes: a relation's row count or a pair's divisor.
#[derive(Clone, Copy, Debug, PartialEq, Eq)]
pub enum Edit {
    Count { k: u32, value: u32 },
    Pair { i: u32, j: u32, value: u32 },
}

impl Edit {
    // The relation, or both relations of the pair.
    pub fn relations(self) -> Set {
        match self {
            Edit::Count { k, .. } => sets::single(k),
            Edit::Pair { i, j, .. } => sets::single(i) | sets::single(j),
        }
    }
}

impl Figures {
    // Relation k's row count.
    pub fn count(&self, k: u32) -> u32 {
        self.counts.get(count_place(k)).copied().unwrap_or(0)
    }

    // The divisor between relations i and j.
    pub fn divisor(&self, i: u32, j: u32) -> u32 {
        self.divisors.get(pair_place(i, j)).copied().unwrap_or(1)
    }

    // The figures once the edit has stored its value.
    pub fn changed(mut self, edit: Edit) -> Figures {
        match edit {
            Edit::Count { k, value } => store(&mut self.counts, count_place(k), value),
            Edit::Pair { i, j, value } => store(&mut self.divisors, pair_place(i, j), value),
        }
        self
    }
}

fn store(figures: &mut [u32], at: usize, value: u32) {
    if let Some(figure) = figures.get_mut(at) {
        *figure = value;
    }
}

// Where relation k's count stands.
fn count_place(k: u32) -> usize {
    k.saturating_sub(1) as usize
}

// Where the pair's divisor stands: (j-1)(j-2)/2 + (i-1), i being the lower of the two names.
fn pair_place(i: u32, j: u32) -> usize {
    let (lower, upper) = (i.min(j), i.max(j));
    pairs(upper.saturating_sub(1)).saturating_add(count_place(lower))
}

// How many divisors n relations have.
pub fn pairs(n: u32) -> usize {
    n as usize * n.saturating_sub(1) as usize / 2
}
