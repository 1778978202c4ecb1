// Row counts and divisors read from a figures file (document 01, "Figures file").
#![tactic(auto)]

ghost use Rattle.std.specs.Prelude.{◌≡◌};
ghost use Rattle.figures.specs.Judge.{number_of, result_of, judged};

// The entry lines, and the figures that they say.
mod entries;
// The readers of lines.
mod lines;
// Words, and the numbers that they are.
mod words;

// Why a text is refused: the numbers are document 01's ("Figures file").
#[derive(Clone, Copy, Debug, PartialEq, Eq)]
pub enum Refusal {
    // n is not 1 to 15.
    Relations = 1,
    // The first two numbers of the size line are unequal.
    Unequal = 2,
    // A divisor is 0.
    ZeroDivisor = 3,
    // A line has not its shape or is missing, or bytes follow the last.
    Shape = 11,
    // A relation has no row count.
    NoCount = 12,
    // A place is given twice.
    Twice = 13,
    // A place is not in the lower triangle of n by n.
    Outside = 14,
    // A number is above 4,294,967,295.
    TooLarge = 15,
}

impl From<Refusal> for u32 {
    ghost from_gives = { λ why n. n ≡ number_of why };

    fn from(why: Refusal) -> u32 {
        why as u32
    }
}

impl Refusal {
    // The refusal of the line that starts at `at`.
    fn at(self, at: usize) -> Fault
        ensures { result ≡ record { why = self; at = at } }
    {
        Fault { why: self, at }
    }
}

// Why a text is refused, and the start of the line at fault.
#[derive(Clone, Copy, Debug, PartialEq, Eq)]
pub struct Fault {
    pub why: Refusal,
    pub at: usize,
}

// The figures of n relations: relation k's row count at place k - 1, and the divisors at their pairs' places. What is past those of n is 0:
// there is no heap, so the arrays are as long as for the most relations.
#[derive(Clone, Copy, Debug, PartialEq, Eq)]
pub struct Figures {
    pub n: u32,
    pub counts: [u32; 15],
    pub divisors: [u32; 105],
}

// The figures that a text says. No text is too long or too damaged: it is judged from the top, line by line, up to the first fault.
pub fn read(text: &[u8]) -> Result<Figures, Fault>
    ensures result { result_of result ≡ judged text.now }
{
    // Let else, and not `?`: document 01 names the form ("Which places take which form").
    let first = lines::first_line(text);
    let Ok(second) = first else {
        return Err(first.unwrap_err());
    };
    let comments = lines::past_comments(text, second);
    let Ok(at) = comments else {
        return Err(comments.unwrap_err());
    };
    let size = lines::size_line(text, at);
    let Ok((n, _, m, start)) = size else {
        return Err(size.unwrap_err());
    };
    entries::read_entries(text, start, n, m)
}
