// The walk through the left parts (document 01, "Which places take which form"): recursion into left and right parts, the set's number
// falling. It ends on any column, since it goes on only from a left part that is neither empty nor the whole set.
//
// The column and the set stay two parameters: a struct of both would be made anew for each part, and say no more.
ghost use Rattle.std.specs.Prelude.{◌≡◌, ◌<◌, length, get_or};
ghost use Rattle.newick.specs.Walks.{faulty, meets_fault};

use relations::Set;

// Whether the walk from `set` meets a set of two or more whose left part is empty, the whole set, or not inside it.
#[tactic(auto, using(crate::proofs::WalkLaws::walk_end, crate::proofs::WalkLaws::walk_parts, crate::proofs::WalkLaws::no_fault))]
pub fn meets_fault(lefts: &[u16], set: Set) -> bool
    requires { set.number < length lefts.now }
    ensures { result ≡ meets_fault lefts.now set.number }
{
    if !set.is_larger() {
        return false;
    }
    let left = left_part(lefts, set);
    let right = set.minus(left);
    is_faulty(left, set) || meets_fault(lefts, left) || meets_fault(lefts, right)
}

// The left part that the column has for `set`.
pub fn left_part(lefts: &[u16], set: Set) -> Set
    requires { set.number < length lefts.now }
    ensures { result.number ≡ get_or lefts.now set.number 0 }
{
    let number = u32::from(lefts[set.number as usize]);
    Set { number }
}

// Whether a left part is empty, the whole set, or not inside it.
#[tactic(auto, unfolding(crate::specs::Walks::faulty))]
fn is_faulty(left: Set, set: Set) -> bool
    ensures { result ≡ faulty left.number set.number }
{
    left == Set::EMPTY || left == set || !set.holds(left)
}
