// Sizes from the figures alone (document 01, "Sizes").
use crate::figures::Figures;
use crate::sets::Set;
use crate::{ROWS, sets};

// The size of `set`: from its highest relation down, each put before those above it.
fn size(figures: &Figures, set: Set) -> u32 {
    let mut size = 0;
    let mut above = 0;
    for k in sets::members(set).iter().rev() {
        size = joined(figures, *k, above, size);
        above |= sets::single(*k);
    }
    size
}

// The size of relation k with the relations above it, whose size is given. It divides by one divisor after another and rounds up each
// time, which comes to the same as rounding up once after dividing by their product. No divisor is 0.
pub fn joined(figures: &Figures, k: u32, above: Set, size: u32) -> u32 {
    if above == 0 {
        return figures.count(k);
    }
    let mut rows = u64::from(size) * u64::from(figures.count(k));
    for j in &sets::members(above) {
        rows = rows.div_ceil(u64::from(figures.divisor(k, *j).max(1)));
    }
    u32::try_from(rows).unwrap_or(u32::MAX)
}

// The size of every set of relations 1 to n, by set number; the empty set's is 0.
pub fn column(figures: &Figures) -> [u32; ROWS] {
    let mut column = [0; ROWS];
    for (place, set) in column.iter_mut().zip(0..sets::sets(figures.n)) {
        *place = size(figures, set);
    }
    column
}
