// The readers of lines (document 01, "Figures file"). A reader is told where its line starts, and answers with the place after it, or with
// the refusal and the start of the line: "The answer carries the start of the offending line". Callers take it apart by let else, and not by
// `?`: document 01 names the form ("Which places take which form").
ghost use Rattle.std.specs.Prelude.{◌≡◌, not, [], length};
ghost use Rattle.relations.specs.Sets.{MOST, is_relation};
ghost use Rattle.figures.specs.Entries.{in_triangle};
ghost use Rattle.figures.specs.Judge.{faulty, entry_lines, size_line, comments, judged};
ghost use Rattle.figures.specs.Inner.{lines_at, passed, told, Reads, Onward, Sized, Inside};

use crate::{Fault, Refusal, words};

// The numbers of a line, and the place after it.
pub type Line = (u32, u32, u32, usize);

// "Line 1 is exactly" this.
const HEADING: &[u8] = b"%%MatrixMarket matrix coordinate integer symmetric";

// Line 1.
pub fn first_line(text: &[u8]) -> Result<usize, Fault>
    ensures { passed result (λ next. comments next (lines_at text.now next)) ≡ judged text.now }
{
    let Some(end) = words::len_before(text, b'\n', 0) else {
        return Err(Refusal::Shape.at(0));
    };
    if &text[..end] != HEADING {
        return Err(Refusal::Shape.at(0));
    }
    Ok(end + 1)
}

// The comments from `at` on, up to the start of the first line that is none. One without its feed is refused.
#[tactic(auto, using(crate::proofs::Comments::no_comment))]
pub fn past_comments(text: &[u8], at: usize) -> Result<usize, Fault>
    ensures { passed result (λ next. size_line next (lines_at text.now next)) ≡ comments at (lines_at text.now at) }
{
    // A while: where a line begins is known only when the feed of the line before it is found.
    let mut start = at;
    while start < text.len() && text[start] == b'%' {
        let Some(len) = words::len_before(text, b'\n', start) else {
            return Err(Refusal::Shape.at(start));
        };
        start += len + 1;
    }
    Ok(start)
}

// The size line: n, n and the number of entry lines.
pub fn size_line(text: &[u8], at: usize) -> Result<Line, Fault>
    ensures reads { told result (λ n b m next. entry_lines n m [] next (lines_at text.now next))
        ≡ size_line at (lines_at text.now at) }
    ensures sized { Sized result }
{
    let line = numbers_line(text, at);
    let Ok((n, b, _, _)) = line else {
        return line;
    };
    if n != b {
        return Err(Refusal::Unequal.at(at));
    }
    if !relations::is_relation(relations::MOST, n) {
        return Err(Refusal::Relations.at(at));
    }
    line
}

// An entry line of a file of n relations: i, j and v, with (i, j) in the lower triangle.
pub fn entry_line(text: &[u8], at: usize, n: u32) -> Result<Line, Fault>
    ensures reads { Reads text.now at result (λ go i j v next rest. faulty 14 at (not (in_triangle n i j)) (go i j v next rest)) }
    ensures inside { Inside n result }
    ensures onward { Onward at (length text.now) result }
{
    let line = numbers_line(text, at);
    let Ok((i, j, _, _)) = line else {
        return line;
    };
    if !is_inside(n, i, j) {
        return Err(Refusal::Outside.at(at));
    }
    line
}

// Whether (i, j) is in the lower triangle of n by n.
#[tactic(auto, using(std::proofs::lemmas::Bool::Decides::nat_tests), unfolding(crate::specs::Entries::in_triangle, relations::specs::Sets::is_relation))]
fn is_inside(n: u32, i: u32, j: u32) -> bool
    ensures { result ≡ in_triangle n i j }
{
    1 <= j && j <= i && i <= n
}

// A line of three numbers that are not too large. The shape of the whole line comes first.
fn numbers_line(text: &[u8], at: usize) -> Result<Line, Fault>
    ensures reads { Reads text.now at result (λ go. go) }
    ensures onward { Onward at (length text.now) result }
{
    let Some(len) = words::len_before(text, b'\n', at) else {
        return Err(Refusal::Shape.at(at));
    };
    let end = at + len;
    let Some((a, b, c)) = words::three(&text[at..end]) else {
        return Err(Refusal::Shape.at(at));
    };
    // A word is held at one above the largest, where it stands for all that are too large: one test, and then each of them fits.
    if words::LARGEST < a || words::LARGEST < b || words::LARGEST < c {
        return Err(Refusal::TooLarge.at(at));
    }
    Ok((a as u32, b as u32, c as u32, end + 1))
}
