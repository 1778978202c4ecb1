// The one numbering of relations, and sets of them (document 01, "One numbering"). Relation k is number k everywhere: in the row
// counts, the pair figures, the table and the printed tree.
#![tactic(auto)]

ghost use Rattle.std.specs.Prelude.{◌≡◌, ◌^◌, ◌<◌};
ghost use Rattle.std.specs.Iterator.{at_most};
ghost use Rattle.relations.specs.Sets.{is_relation, one_of, all_of, inside, Part, without, lowest, rest, LowestFirst, single, larger};
ghost use Rattle.relations.specs.Splits.{next_left, Next};

// The place of a pair's divisor among the pair figures.
pub mod pairs;

// The most relations allowed.
pub const MOST: u32 = 15;

// Whether k names one of n relations.
#[tactic(auto, using(std::proofs::lemmas::Bool::Decides::nat_tests), unfolding(crate::specs::Sets::is_relation))]
pub fn is_relation(n: u32, k: u32) -> bool
    ensures { result ≡ is_relation n k }
{
    (1..=n).contains(&k)
}

// A set of relations, by its number: the sum of its members' weights, where relation k weighs 2^(k-1).
#[derive(Clone, Copy, Debug, PartialEq, Eq)]
pub struct Set {
    pub number: u32,
}

impl Set {
    pub const EMPTY: Set = Set { number: 0 };

    // Relation k alone. There is no relation 0 and none above MOST: then the empty set.
    #[tactic(auto, using(crate::proofs::Named::one_is, crate::proofs::Named::one_none))]
    pub fn one(k: u32) -> Set
        ensures { result.number ≡ one_of k }
    {
        if k == 0 || MOST < k {
            return Set::EMPTY;
        }
        let number = power(k - 1);
        Set { number }
    }

    // Relations 1 to n, for n up to MOST; else the empty set.
    #[tactic(auto, using(crate::proofs::Named::all_is, crate::proofs::Named::all_none))]
    pub fn all(n: u32) -> Set
        ensures { result.number ≡ all_of n }
    {
        if MOST < n {
            return Set::EMPTY;
        }
        let number = power(n) - 1;
        Set { number }
    }

    // The lowest-numbered relation, and 0 for the empty set.
    #[tactic(auto, using(crate::proofs::Lowest::code_lowest))]
    pub fn lowest(self) -> u32
        ensures { result ≡ lowest self.number }
    {
        if self.number == 0 {
            return 0;
        }
        self.number.trailing_zeros() + 1
    }

    // The set without its lowest-numbered relation.
    pub fn rest(self) -> Set
        ensures { result.number ≡ rest self.number }
    {
        let number = self.number & self.number.wrapping_sub(1);
        Set { number }
    }

    // Its relations, the lowest first.
    pub fn members(self) -> MembersIter
        ensures { result.left ≡ self }
    {
        MembersIter { left: self }
    }

    // Exactly one relation.
    #[tactic(auto, using(crate::proofs::Lowest::code_ones))]
    pub fn is_single(self) -> bool
        ensures { result ≡ single self.number }
    {
        self.number.count_ones() == 1
    }

    // Two relations or more.
    #[tactic(auto, using(crate::proofs::Lowest::code_ones))]
    pub fn is_larger(self) -> bool
        ensures { result ≡ larger self.number }
    {
        1 < self.number.count_ones()
    }

    // Every relation of `part` is in this set.
    #[tactic(auto, using(crate::proofs::Parts::inside_common))]
    pub fn holds(self, part: Set) -> bool
        ensures { result ≡ inside part.number self.number }
    {
        part.number & self.number == part.number
    }

    // The relations of this set that are not in `other`. Of a split it gives the right part from the left.
    #[tactic(auto, using(crate::proofs::Parts::without_common))]
    pub fn minus(self, other: Set) -> Set
        ensures { result.number ≡ without self.number other.number }
    {
        let number = self.number - (self.number & other.number);
        Set { number }
    }

    // The part of this set that comes after `left` in rising order: from the empty set through every left part to the set itself. The
    // step is document 01's own ("Which places take which form").
    #[tactic(auto, unfolding(crate::specs::Splits::next_left, crate::specs::Splits::wrapped_step))]
    pub fn next_left(self, left: Set) -> Set
        ensures step { result.number ≡ next_left self.number left.number }
        ensures rising { Part left.number self.number → Next self.number left.number result.number }
    {
        let number = self.number & left.number.wrapping_sub(self.number);
        Set { number }
    }
}

// The relations of a set, the lowest first: those of `left` are still to come.
#[derive(Debug, PartialEq, Eq, Drop)]
pub struct MembersIter {
    pub left: Set,
}

impl Iterator for MembersIter {
    type Item = u32;

    ghost next_gives = { λ s k t. LowestFirst s.left.number k t.left.number };

    ghost remaining = { λ s. at_most s.left.number };

    #[tactic(auto, using(crate::proofs::Lowest::rest_lt))]
    fn next(&mut self) -> Option<u32> {
        if self.left == Set::EMPTY {
            return None;
        }
        let lowest = self.left.lowest();
        self.left = self.left.rest();
        Some(lowest)
    }
}

// 2^p. Every shift of the project is here, so that all else speaks of powers.
fn power(p: u32) -> u32
    requires { p < 32 }
    ensures { result ≡ 2 ^ p }
{
    1 << p
}
