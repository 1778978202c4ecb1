// The tree as text (document 01, "Printing the tree"), for fewer than 10 relations: each is one digit.
ghost use Rattle.std.specs.Prelude.{◌≤◌};

use crate::columns::Table;
use crate::jobs::Refusal;
use crate::sets::Set;
use crate::{NODES, ROOM, columns, sets};
use arrayvec::ArrayVec;

// What print answers, the needed length or document 01's number of a refusal, which is what is held to account, with the room that it was
// lent.
#[derive(Clone, Copy, Debug, PartialEq, Eq)]
pub struct Text {
    pub answer: Result<usize, u32>,
    pub room: [u8; ROOM],
}

// A node of a tree, and the place of its text.
#[derive(Clone, Copy, Debug, Default, PartialEq, Eq)]
struct Node {
    set: Set,
    place: usize,
}

// A walk through the nodes of a tree, a set after the sets that it is a part of: the nodes that are still to be visited, and the text.
#[derive(Drop)]
struct Walk {
    nodes: ArrayVec<Node, NODES>,
    text: [u8; ROOM],
}

// What print has to answer for a table in a room of this length, all of it `fill` before. With a refusal nothing is written.
pub fn print(n: u32, table: &Table, length: usize, fill: u8) -> Text {
    match written(n, table, length, fill) {
        Ok(room) => Text {
            answer: Ok(needed(n)),
            room,
        },
        Err(why) => Text {
            answer: Err(u32::from(why)),
            room: [fill; ROOM],
        },
    }
}

// The room with the text in it. No tree has more than NODES nodes, so all are visited, and the bound ends the walk of a damaged table.
fn written(n: u32, table: &Table, length: usize, fill: u8) -> Result<[u8; ROOM], Refusal> {
    if length < needed(n) {
        return Err(Refusal::ShortRoom);
    }
    if table.plan(n).is_none() {
        return Err(Refusal::NoPlan);
    }
    let full = sets::full(n);
    let mut walk = Walk {
        nodes: ArrayVec::new(),
        text: [fill; ROOM],
    };
    walk.add(Node {
        set: full,
        place: 0,
    });
    for _ in 0..NODES {
        if let Some(node) = walk.nodes.pop() {
            walk.visit(node, &table.lefts)?;
        }
    }
    walk.write(span(full), b';');
    Ok(walk.text)
}

// The needed length.
pub fn needed(n: u32) -> usize {
    span(sets::full(n)) + 1
}

// How long a set's tree is in the text: its digits, and three bytes for each join.
fn span(set: Set) -> usize
    ensures { result ≤ 25 }
{
    (4 * sets::count(set)).saturating_sub(3)
}

impl Walk {
    // The text of one node written, but for its parts, which become nodes to visit. No tree: a set of two or more has no left part in it.
    fn visit(&mut self, node: Node, lefts: &[Set]) -> Result<(), Refusal> {
        let Node { set, place } = node;
        if let [k] = sets::members(set).as_slice() {
            self.write(place, b'0' + (*k % 10) as u8);
            return Ok(());
        }
        let left = columns::at(lefts, set);
        if left == 0 || left == set || !sets::holds(set, left) {
            return Err(Refusal::NoTree);
        }
        let right = set ^ left;
        let left_place = place.wrapping_add(1);
        let comma = left_place.wrapping_add(span(left));
        let right_place = comma.wrapping_add(1);
        let close = right_place.wrapping_add(span(right));
        self.write(place, b'(');
        self.write(comma, b',');
        self.write(close, b')');
        self.add(Node {
            set: left,
            place: left_place,
        });
        self.add(Node {
            set: right,
            place: right_place,
        });
        Ok(())
    }

    fn write(&mut self, place: usize, byte: u8) {
        if let Some(there) = self.text.get_mut(place) {
            *there = byte;
        }
    }

    fn add(&mut self, node: Node) {
        if !self.nodes.is_full() {
            self.nodes.push(node);
        }
    }
}
