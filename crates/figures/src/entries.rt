// The entry lines, and the figures that they say (document 01, "Figures file").
ghost use Rattle.std.specs.Prelude.{true, ◌≡◌, [], ◌≤◌};
ghost use Rattle.relations.specs.Sets.{MOST, is_relation};
ghost use Rattle.figures.specs.Entries.{entry, in_triangle, zero_divisor, figures_of};
ghost use Rattle.figures.specs.Judge.{result_of, entry_lines};
ghost use Rattle.figures.specs.Inner.{lines_at, with_entry, all_seen};

use crate::{Fault, Figures, Refusal, lines};

// m entry lines from `start` on, and the end of the text. However many the size line claims, each turn takes bytes of the text, so that
// there are no more turns than bytes; and since no place is taken twice, the 121st line is refused at the latest.
#[tactic(auto, using(crate::proofs::Collected::triangle))]
pub fn read_entries(text: &[u8], start: usize, n: u32, m: u32) -> Result<Figures, Fault>
    requires { is_relation MOST n ≡ true }
    ensures { result_of result ≡ entry_lines n m [] start (lines_at text.now start) }
{
    let mut seen = [[false; 15]; 15];
    let mut figures = no_entries(n);
    let mut at = start;
    for _ in 0..m {
        // Let else, as in `read`.
        let line = lines::entry_line(text, at, n);
        let Ok((i, j, v, next)) = line else {
            return Err(line.unwrap_err());
        };
        let row = (i - 1) as usize;
        let column = (j - 1) as usize;
        let twice = seen[row][column];
        let no_divisor = is_zero_divisor(i, j, v);
        if twice {
            return Err(Refusal::Twice.at(at));
        }
        if no_divisor {
            return Err(Refusal::ZeroDivisor.at(at));
        }
        seen[row][column] = true;
        figures = with_entry(figures, i, j, v);
        at = next;
    }
    let bytes_follow = at < text.len();
    if bytes_follow {
        return Err(Refusal::Shape.at(at));
    }
    if !all_seen(seen, n) {
        return Err(Refusal::NoCount.at(at));
    }
    Ok(figures)
}

// The figures of n relations before any entry is read: no rows, and no predicate, which is divisor 1. That n is at most 15 is asked for
// here and by others one by one: each has a number of its own, and a type for it would be taken apart at once.
fn no_entries(n: u32) -> Figures
    requires { n ≤ MOST }
    ensures { result ≡ figures_of n [] }
{
    let mut divisors = [0u32; 105];
    let pairs = relations::pairs::place(1, n + 1);
    divisors[..pairs].fill(1);
    Figures {
        n,
        counts: [0; 15],
        divisors,
    }
}

// The figures with one entry more: on the diagonal a row count, off it a divisor.
fn with_entry(figures: Figures, i: u32, j: u32, v: u32) -> Figures
    requires { in_triangle MOST i j ≡ true }
    ensures { result ≡ with_entry figures (entry i j v) }
{
    let mut more = figures;
    if i == j {
        let at = (i - 1) as usize;
        more.counts[at] = v;
        return more;
    }
    let at = relations::pairs::place(i, j);
    more.divisors[at] = v;
    more
}

// Whether the entry is a divisor of 0. A row count may be 0.
#[tactic(auto, using(std::proofs::lemmas::Bool::Decides::nat_tests), unfolding(crate::specs::Entries::zero_divisor))]
fn is_zero_divisor(i: u32, j: u32, v: u32) -> bool
    ensures { result ≡ zero_divisor (entry i j v) }
{
    i != j && v == 0
}

// Whether the diagonal places of relations 1 to n were all seen.
fn all_seen(seen: [[bool; 15]; 15], n: u32) -> bool
    requires { n ≤ MOST }
    ensures { result ≡ all_seen seen n }
{
    (0..n as usize).all(|k| seen[k][k])
}
