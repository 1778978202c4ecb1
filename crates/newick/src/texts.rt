// The text of a tree (document 01, "Printing the tree").
ghost use Rattle.std.specs.Prelude.{◌≡◌, ◌+◌, ◌≤◌, length};
ghost use Rattle.std.proofs.lemmas.List.Edits.{sets};
ghost use Rattle.relations.specs.Sets.{MOST};
ghost use Rattle.table.specs.Trees.{plan_of};
ghost use Rattle.newick.specs.Texts.{text, needed};
ghost use Rattle.newick.specs.Inner.{Walked};

use crate::walks;
use relations::Set;

// How long the text of a tree of relations 1 to n is: a digit for each, a second from 10 on, three bytes for a join, and the end.
pub fn needed(n: u32) -> usize
    requires { (1 ≤ n) × (n ≤ MOST) }
    ensures { result ≡ needed n }
{
    let k = n as usize;
    let digits = if k < 10 { k } else { 2 * k - 9 };
    digits + 3 * (k - 1) + 1
}

// The tree of `set` written from place `at` on; the place after it. It writes by recursion into lent room, as document 01 has it, where
// `Display` could fail.
#[tactic(auto, using(crate::proofs::Writing::text_alone, crate::proofs::Writing::length_parts, crate::proofs::Writing::parts_written, crate::proofs::Writing::length_kept))]
pub fn put_tree(lefts: &[u16], set: Set, out: &mut [u8], at: usize) -> usize
    requires walked { Walked lefts.now set.number }
    requires room { at + length (text (plan_of lefts.now set.number)) ≤ length out.old }
    ensures end { result ≡ at + length (text (plan_of lefts.now set.number)) }
    ensures written { out.new ≡ sets out.old at (text (plan_of lefts.now set.number)) }
{
    if !set.is_larger() {
        return numbers::put_decimal(u64::from(set.lowest()), out, at);
    }
    let left = walks::left_part(lefts, set);
    let right = set.minus(left);
    out[at] = b'(';
    let comma = put_tree(lefts, left, out, at + 1);
    out[comma] = b',';
    let close = put_tree(lefts, right, out, comma + 1);
    out[close] = b')';
    close + 1
}
