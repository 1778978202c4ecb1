// Every bushy tree, by growing it leaf by leaf.
use crate::prices::Model;
use crate::sets::Set;
use crate::{JOINS, ROWS, columns, sets};
use arrayvec::ArrayVec;

// A set that is joined, and its left part. The right part is what is left of the set, and a part that is no join is a relation.
#[derive(Clone, Copy, Debug, Default, PartialEq, Eq)]
struct Join {
    set: Set,
    left: Set,
}

// A tree as its joins, in the order in which they were grown.
#[derive(Drop)]
pub struct Tree {
    joins: ArrayVec<Join, JOINS>,
}

// How many trees there are of so many relations: (2m-2)!/(m-1)!.
pub fn number_of_trees(m: usize) -> usize {
    match m {
        0..=1 => 1,
        2 => 2,
        3 => 12,
        4 => 120,
        5 => 1680,
        6 => 30240,
        7.. => 665280,
    }
}

// Tree number `number` of these members. The first member is a tree by itself. Each other one is put beside one of the nodes that the tree
// has by then, a relation or a join, to the left or to the right of it: after so many joins there are that many and one relations, and
// the digits of the number, to these changing bases, say which and where. Taking the last member away again gives the tree before it, so
// every tree has one number and no other.
pub fn grown(members: &[u32], number: usize) -> Tree {
    let mut tree = Tree {
        joins: ArrayVec::new(),
    };
    let mut rest = number;
    for leaf in members.iter().skip(1) {
        let nodes = 2 * tree.joins.len() + 1;
        let node = tree.node(members, rest % nodes);
        rest /= nodes;
        tree.put(sets::single(*leaf), node, rest % 2 == 0);
        rest /= 2;
    }
    tree
}

impl Tree {
    // The set of a node of a tree of the first of these members: the relations come first.
    fn node(&self, members: &[u32], at: usize) -> Set {
        let joins = self.joins.len();
        if at <= joins {
            return members.get(at).map_or(0, |k| sets::single(*k));
        }
        self.joins.get(at - joins - 1).map_or(0, |join| join.set)
    }

    // A new join, of `leaf` and `node`, in the node's place. The sets above the node, and the parts that it is in, gain the leaf.
    fn put(&mut self, leaf: Set, node: Set, first: bool) {
        for join in self.joins.iter_mut() {
            let above = join.set != node && sets::holds(join.set, node);
            if above && sets::holds(join.left, node) {
                join.left |= leaf;
            }
            if above {
                join.set |= leaf;
            }
        }
        if !self.joins.is_full() {
            self.joins.push(Join {
                set: node | leaf,
                left: if first { leaf } else { node },
            });
        }
    }

    // What the tree costs: the charges of its joins, since a relation costs 0 and a join its two trees and its charge.
    pub fn cost(&self, model: Model, sizes: &[u32]) -> u64 {
        let mut total = 0u64;
        for join in &self.joins {
            let a = columns::at(sizes, join.left);
            let b = columns::at(sizes, join.set ^ join.left);
            let o = columns::at(sizes, join.set);
            total = total.saturating_add(model.charge(a, b, o));
        }
        total
    }

    // The left part into which the tree splits `set`, where it joins that set.
    pub fn left_part(&self, set: Set) -> Option<Set> {
        self.joins
            .iter()
            .find(|join| join.set == set)
            .map(|join| join.left)
    }

    // Whether, of two trees that cost the same, this is the one to record: at the highest set that both join, and join differently, its left
    // part has the lesser number. (Document 01 settles ties set by set. The tree that it picks has, at each of its sets, the least left part
    // that any of the cheapest trees has there; so it wins against each of them, wherever the two are held against each other.)
    pub fn comes_before(&self, other: &Tree) -> bool {
        self.joins
            .iter()
            .filter_map(|join| Some((*join, other.left_part(join.set)?)))
            .filter(|(join, left)| join.left != *left)
            .max_by_key(|(join, _)| join.set)
            .is_some_and(|(join, left)| join.left < left)
    }

    // A column that has no left parts but the tree's, so that what is printed of it is the tree.
    pub fn lefts(&self) -> [Set; ROWS] {
        let mut lefts = [0; ROWS];
        for join in &self.joins {
            let at = usize::from(join.set);
            if at < ROWS {
                lefts[at] = join.left;
            }
        }
        lefts
    }
}
