// The plan as Newick text (document 01, "Printing the tree").
#![tactic(auto)]

ghost use Rattle.std.specs.Prelude.{◌≡◌};
ghost use Rattle.newick.specs.Results.{number_of, result_of, printed};

use relations::Set;

// What is checked before anything is written.
mod checks;
// The text of a tree and of a relation.
mod texts;
// The walk through the left parts.
mod walks;

// Why no text is written, by its number in document 01 ("Numbers answered").
#[derive(Clone, Copy, Debug, PartialEq, Eq)]
pub enum Refusal {
    // n is not 1 to 15.
    Relations = 1,
    // A column is shorter than 2^n.
    ShortColumn = 6,
    // No tree is within the limit.
    NoPlan = 7,
    // The room is below the needed length.
    ShortText = 9,
    // The table holds no tree.
    NoTree = 10,
}

impl From<Refusal> for u32 {
    ghost from_gives = { λ why n. n ≡ number_of why };

    fn from(why: Refusal) -> u32 {
        why as u32
    }
}

// The tree that the left parts give for relations 1 to n, written at the start of `text` once the walk has found that they give one: the
// text's length, or why there is none. 64 bytes are always room enough.
#[tactic(auto, using(crate::proofs::Printing::leaves_refused, crate::proofs::Printing::passed_fits, crate::proofs::Printing::leaves_written))]
pub fn print(n: u32, costs: &[u64], lefts: &[u16], text: &mut [u8]) -> Result<usize, Refusal>
    ensures result { result_of result text.new ≡ printed n costs.now lefts.now text.old }
{
    checks::check(n, costs, lefts, text.len())?;
    let all = Set::all(n);
    let end = texts::put_tree(lefts, all, text, 0);
    text[end] = b';';
    Ok(end + 1)
}
