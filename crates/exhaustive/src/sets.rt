// Sets of relations as numbers (document 01, "One numbering").
ghost use Rattle.std.specs.Prelude.{◌≤◌};

use crate::{LAST, MOST};
use arrayvec::ArrayVec;

pub type Set = u16;

// The set of relation k alone: the number 2^(k-1).
pub fn single(k: u32) -> Set {
    1u16.wrapping_shl(k.wrapping_sub(1))
}

// How many sets there are of relations 1 to n, the empty one included.
pub fn sets(n: u32) -> Set {
    1u16.wrapping_shl(n)
}

// The set of relations 1 to n: the last of those sets.
pub fn full(n: u32) -> Set {
    sets(n).wrapping_sub(1)
}

// Whether every relation of `part` is in `set`.
pub fn holds(set: Set, part: Set) -> bool {
    set & part == part
}

// The members of a set, lowest first.
pub fn members(set: Set) -> ArrayVec<u32, MOST> {
    let mut members = ArrayVec::new();
    for k in 1..=LAST {
        if holds(set, single(k)) && !members.is_full() {
            members.push(k);
        }
    }
    members
}

// How many members the set has.
pub fn count(set: Set) -> usize
    ensures { result ≤ 7 }
{
    members(set).len()
}
