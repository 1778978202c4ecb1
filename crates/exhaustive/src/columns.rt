// The three columns of a table (document 01, "Rows of the table"), and a plan read off them.
use crate::sets::Set;
use crate::{ROWS, sets};

// More rows than any table here has sets: those past the last set are nobody's to write. Three arrays: the real functions are lent columns.
#[derive(Clone, Copy, Debug, PartialEq, Eq)]
pub struct Table {
    pub sizes: [u32; ROWS],
    pub costs: [u64; ROWS],
    pub lefts: [u16; ROWS],
}

#[derive(Clone, Copy, Debug, Default, PartialEq, Eq)]
pub struct Row {
    pub size: u32,
    pub cost: u64,
    pub left: Set,
}

// Not the table's own: the search shares nothing with what it judges.
#[derive(Clone, Copy, Debug, PartialEq, Eq)]
pub struct Plan {
    pub cost: u64,
    pub size: u32,
}

// What a column has for a set. There are more rows than sets.
pub fn at<T: Copy + Default>(column: &[T], set: Set) -> T {
    column.get(usize::from(set)).copied().unwrap_or_default()
}

impl Row {
    // The row of a set that has no usable split.
    pub fn unusable(size: u32) -> Row {
        Row {
            size,
            cost: u64::MAX,
            left: 0,
        }
    }
}

impl Table {
    pub fn row(&self, set: Set) -> Row {
        Row {
            size: at(&self.sizes, set),
            cost: at(&self.costs, set),
            left: at(&self.lefts, set),
        }
    }

    pub fn set_row(&mut self, set: Set, row: Row) {
        let at = usize::from(set);
        if at < ROWS {
            self.sizes[at] = row.size;
            self.costs[at] = row.cost;
            self.lefts[at] = row.left;
        }
    }

    // The plan that the full set's row gives: none exactly when its cost is 2^64-1.
    pub fn plan(&self, n: u32) -> Option<Plan> {
        let Row { size, cost, .. } = self.row(sets::full(n));
        (cost < u64::MAX).then_some(Plan { cost, size })
    }
}
