// Numbers that look drawn at random and are the same in every run.
use crate::columns::Table;
use crate::figures::{Edit, Figures};
use crate::sets::Set;
use crate::{HIGHEST, MOST};
use std::array;

// How many numbers an edit can have.
pub const EDITS: u32 = 160;

// The number drawn at a place of a seed's list: so many places from where a part of the list begins.
fn drawn(seed: u64, part: u64, place: usize) -> u32 {
    let start = (seed << 32).wrapping_add(part).wrapping_add(place as u64);
    let number = stirred(stirred(stirred(start)));
    (number >> 32) as u32
}

// One step of Marsaglia's xorshift, after a sum so that it has more than shifts in it.
fn stirred(x: u64) -> u64 {
    let a = x.wrapping_add(11400714819323198485);
    let b = a ^ (a << 13);
    let c = b ^ (b >> 7);
    c ^ (c << 17)
}

// Figures of n relations. The index says of which kinds: 48 indices have every kind of count with every kind of divisor.
pub fn figures(n: u32, index: u32) -> Figures {
    let seed = u64::from(index) * 8 + u64::from(n);
    let counted = index % 8;
    let divided = (index / 8 % 6 + index % 8) % 6;
    Figures {
        n,
        counts: array::from_fn(|at| count(counted, drawn(seed, 0, at))),
        divisors: array::from_fn(|at| divisor(divided, drawn(seed, MOST as u64, at))),
    }
}

// A row count: none, one, few with zeros among them (many ties), few, hundreds, any, the highest; kind 7 mixes these. A kind is itself a
// number drawn or counted through: an enum would need this match twice.
fn count(kind: u32, draw: u32) -> u32 {
    let one = if kind == 7 { draw / 65536 % 7 } else { kind };
    match one {
        0 => 0,
        1 => 1,
        2 => draw % 3,
        3 => 1 + draw % 9,
        4 => draw % 1000,
        5 => draw,
        6.. => u32::MAX,
    }
}

// A divisor: 1 (no predicate), little, up to a hundred, any, the highest; kind 5 mixes these. The kind is a number, as in `count`.
fn divisor(kind: u32, draw: u32) -> u32 {
    let one = if kind == 5 { draw / 65536 % 5 } else { kind };
    match one {
        0 => 1,
        1 => 1 + draw % 4,
        2 => 1 + draw % 100,
        3 => draw | 1,
        4.. => u32::MAX,
    }
}

// Edit number `number` of the figures, if there is one. Each relation gets four new counts, and each pair four new divisors, two for each
// order of its names: the least, the old one, the highest and a drawn one.
pub fn edit(figures: &Figures, number: u32) -> Option<Edit> {
    let draw = drawn(u64::from(number), 0, 99);
    if number < 32 {
        return count_edit(figures, number / 4, number % 4, draw);
    }
    let rest = (number - 32) % 128;
    let i = rest / 16;
    let j = rest / 2 % 8;
    let kind = if i < j { rest % 2 } else { 2 + rest % 2 };
    pair_edit(figures, i, j, kind, draw)
}

fn count_edit(figures: &Figures, k: u32, kind: u32, draw: u32) -> Option<Edit> {
    if !(1..=figures.n).contains(&k) {
        return None;
    }
    let value = value(kind, 0, figures.count(k), count(7, draw));
    Some(Edit::Count { k, value })
}

// The five say five things, and go together nowhere else.
fn pair_edit(figures: &Figures, i: u32, j: u32, kind: u32, draw: u32) -> Option<Edit> {
    let names = 1..=figures.n;
    if !names.contains(&i) || !names.contains(&j) || i == j {
        return None;
    }
    let value = value(kind, 1, figures.divisor(i, j), divisor(5, draw));
    Some(Edit::Pair { i, j, value })
}

// The least, the old one, the highest or a drawn one. The kind is a number drawn, as in `count`.
fn value(kind: u32, least: u32, old: u32, drawn: u32) -> u32 {
    match kind {
        0 => least,
        1 => old,
        2 => u32::MAX,
        3.. => drawn,
    }
}

// A table of no figures: sizes and costs of every kind, and left parts that are sound but for some.
pub fn damaged(seed: u64) -> Table {
    Table {
        sizes: array::from_fn(|set| count(7, drawn(seed, 1000, set))),
        costs: array::from_fn(|set| cost(drawn(seed, 2000, set))),
        lefts: array::from_fn(|set| left(set as u16, drawn(seed, 3000, set))),
    }
}

// A stored cost: none, little (many ties), hundreds, millions, on both sides of 2^60, close to 2^64 and at its end.
fn cost(draw: u32) -> u64 {
    let more = u64::from(draw / 65536 % 4);
    match draw % 8 {
        0 => 0,
        1 => more,
        2 => u64::from(draw / 65536 % 1000),
        3 => u64::from(draw / 16),
        4 => HIGHEST - more,
        5 => HIGHEST + more,
        6 => u64::MAX - more,
        7.. => u64::MAX,
    }
}

// A left part: mostly a part of the set with something on either side; else any number, none, the whole set, or more than the set.
fn left(set: Set, draw: u32) -> Set {
    let any = (draw / 65536) as u16;
    match draw % 32 {
        0 => any,
        1 => 0,
        2 => set,
        3 => set | any,
        4.. => sound_left(set, any),
    }
}

// A part of the set with something on either side, for a set of two or more: the lowest relation where the draw gives none.
fn sound_left(set: Set, any: Set) -> Set {
    let part = set & any;
    if part != 0 && part != set {
        return part;
    }
    set & 0u16.wrapping_sub(set)
}

// Limits amid the costs: the highest, millions, hundreds.
pub fn limits(seed: u64) -> [u64; 3] {
    let draw = drawn(seed, 0, 4000);
    [HIGHEST, u64::from(draw / 16), u64::from(draw % 1000)]
}
