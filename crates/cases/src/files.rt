// Case 9 of document 01, and texts on both sides of every edge of a figures file, through the reader. The numbers and places are the
// document's; number 0 at place 0 stands for a text that is accepted.
ghost use Rattle.std.specs.Prelude.{true, ◌≡◌, ◌≤◌, length};
ghost use Rattle.figures.specs.Judge.{result_of};
ghost use Rattle.cases.specs.Files.{is_answer, after_line1, answers_to, reads_as};

use figures::{Fault, Figures};

// A text that is refused says none: its answer has no room for any. Where figures are lent, as in `exports`, they are these.
const NO_FIGURES: Figures = Figures {
    n: 0,
    counts: [0; 15],
    divisors: [0; 105],
};

#[tactic(auto, unfolding(crate::specs::Files::answers_to))]
pub fn case_9() {
    after_line_1(b"2 2 1\n1 1 10\n", 12, 64);
    after_line_1(b"2 2 2\n1 1 10\n1 2 5\n", 14, 64);
}

// Line 1: missing, without its feed, not exact, exact.
#[tactic(auto, unfolding(crate::specs::Files::answers_to))]
pub fn first_lines() {
    answers(b"", 11, 0);
    answers(b"%%MatrixMarket matrix coordinate integer symmetric", 11, 0);
    answers(
        b"%%MatrixMarket matrix coordinate integer symmetri\n1 1 1\n1 1 5\n",
        11,
        0,
    );
    answers(
        b"%%MatrixMarket matrix coordinate integer symmetric \n1 1 1\n1 1 5\n",
        11,
        0,
    );
    answers(
        b"%%MatrixMarket matrix coordinate integer symmetric\r\n1 1 1\n1 1 5\n",
        11,
        0,
    );
    answers(
        b"%%matrixmarket matrix coordinate integer symmetric\n1 1 1\n1 1 5\n",
        11,
        0,
    );
    answers(
        b"%%MatrixMarket matrix coordinate integer symmetric\n1 1 1\n1 1 5\n",
        0,
        0,
    );
}

// Comments: without a feed, with no size line after them, some, one that does not begin with its sign, one in the wrong place.
#[tactic(auto, unfolding(crate::specs::Files::answers_to))]
pub fn comments() {
    after_line_1(b"% 1", 11, 51);
    after_line_1(b"%\n", 11, 53);
    after_line_1(b"%\n%% 1 1 1\n1 1 1\n1 1 5\n", 0, 0);
    after_line_1(b" %\n1 1 1\n1 1 5\n", 11, 51);
    after_line_1(b"\n1 1 1\n1 1 5\n", 11, 51);
    after_line_1(b"1 1 1\n% late\n1 1 5\n", 11, 57);
}

// The shape of a size line, and numbers that are too large.
#[tactic(auto, unfolding(crate::specs::Files::answers_to))]
pub fn shapes_of_size_lines() {
    after_line_1(b"", 11, 51);
    after_line_1(b"1 1 1", 11, 51);
    after_line_1(b"1 1\n1 1 5\n", 11, 51);
    after_line_1(b"1 1 1 1\n1 1 5\n", 11, 51);
    after_line_1(b"1  1 1\n1 1 5\n", 11, 51);
    after_line_1(b"1 1 1 \n1 1 5\n", 11, 51);
    after_line_1(b"1\t1 1\n1 1 5\n", 11, 51);
    after_line_1(b"01 1 1\n1 1 5\n", 11, 51);
    after_line_1(b"+1 1 1\n1 1 5\n", 11, 51);
    after_line_1(b"4294967296 1 1 \n", 11, 51);
    after_line_1(b"4294967296 1 1\n", 15, 51);
    after_line_1(b"1 4294967296 1\n", 15, 51);
    after_line_1(b"1 1 4294967296\n", 15, 51);
    after_line_1(b"1 1 1\n1 1 5\n", 0, 0);
}

// A size line's numbers. One that claims four thousand million entries ends where the text does, or at the first place given twice.
#[tactic(auto, unfolding(crate::specs::Files::answers_to))]
pub fn size_lines() {
    after_line_1(b"4294967295 1 1\n", 2, 51);
    after_line_1(b"1 4294967295 1\n", 2, 51);
    after_line_1(b"0 16 0\n", 2, 51);
    after_line_1(b"0 0 0\n", 1, 51);
    after_line_1(b"16 16 0\n", 1, 51);
    after_line_1(b"15 15 0\n", 12, 59);
    after_line_1(b"15 15 4294967295\n1 1 10\n2 2 4\n", 11, 81);
    after_line_1(b"15 15 4294967295\n1 1 10\n1 1 4\n", 13, 75);
}

// The shape of an entry line, and numbers that are too large.
#[tactic(auto, unfolding(crate::specs::Files::answers_to))]
pub fn shapes_of_entry_lines() {
    after_line_1(b"1 1 1\n", 11, 57);
    after_line_1(b"1 1 1\n1 1 5", 11, 57);
    after_line_1(b"1 1 1\n1 1\n", 11, 57);
    after_line_1(b"1 1 1\n1 1 5 \n", 11, 57);
    after_line_1(b"1 1 1\n\n1 1 5\n", 11, 57);
    after_line_1(b"1 1 1\n1 1 05\n", 11, 57);
    after_line_1(b"1 1 1\n1 1 -5\n", 11, 57);
    after_line_1(b"1 1 1\n1 1 5\r\n", 11, 57);
    after_line_1(b"1 1 1\n4294967296 1 -5\n", 11, 57);
    after_line_1(b"1 1 1\n4294967296 1 5\n", 15, 57);
    after_line_1(b"1 1 1\n1 4294967296 5\n", 15, 57);
    after_line_1(b"1 1 1\n1 1 4294967296\n", 15, 57);
    after_line_1(b"1 1 1\n1 1 4294967295\n", 0, 0);
}

// An entry line's place and value.
#[tactic(auto, unfolding(crate::specs::Files::answers_to))]
pub fn entry_lines() {
    after_line_1(b"2 2 1\n1 2 4294967296\n", 15, 57);
    after_line_1(b"2 2 1\n4294967295 1 5\n", 14, 57);
    after_line_1(b"2 2 1\n2 4294967295 5\n", 14, 57);
    after_line_1(b"2 2 1\n1 2 0\n", 14, 57);
    after_line_1(b"2 2 1\n3 2 5\n", 14, 57);
    after_line_1(b"2 2 1\n1 0 5\n", 14, 57);
    after_line_1(b"2 2 1\n0 0 5\n", 14, 57);
    after_line_1(b"2 2 3\n2 2 5\n1 1 5\n2 2 5\n", 13, 69);
    after_line_1(b"2 2 2\n2 1 5\n2 1 0\n", 13, 63);
    after_line_1(b"2 2 1\n2 1 0\n", 3, 57);
    after_line_1(b"2 2 1\n2 1 1\n", 12, 63);
    after_line_1(b"2 2 3\n2 1 1\n2 2 0\n1 1 0\n", 0, 0);
}

// After the last line: extra bytes, a missing diagonal, both.
#[tactic(auto, unfolding(crate::specs::Files::answers_to))]
pub fn ends() {
    after_line_1(b"1 1 1\n1 1 5\n\n", 11, 63);
    after_line_1(b"1 1 1\n1 1 5\n1 1 5\n", 11, 63);
    after_line_1(b"1 1 1\n1 1 5\n ", 11, 63);
    after_line_1(b"1 1 0\n1 1 5\n", 11, 57);
    after_line_1(b"1 1 0\n", 12, 57);
    after_line_1(b"2 2 2\n2 1 5\n1 1 5\n", 12, 69);
    after_line_1(b"2 2 2\n2 2 5\n1 1 5\n", 0, 0);
}

// The figures that are read: each at its relation's or its pair's place, 1 for the pair that is absent, and 0 past them.
#[tactic(auto, unfolding(crate::specs::Files::reads_as))]
pub fn figures_read() {
    let counts = [10, 20, 0, 0, 0, 0, 0, 0, 0, 0, 0, 0, 0, 0, 0];
    let mut divisors = [0; 105];
    divisors[0] = 10;
    divisors[1] = 1;
    divisors[2] = 7;
    reads_as(
        b"%%MatrixMarket matrix coordinate integer symmetric\n% lifts\n3 3 5\n3 2 7\n1 1 10\n2 1 10\n3 3 0\n2 2 20\n",
        Figures {
            n: 3,
            counts,
            divisors,
        },
    );
}

// A text that is refused on its last line leaves no figure.
#[tactic(auto, unfolding(crate::specs::Files::reads_as))]
pub fn no_figures() {
    reads_as(
        b"%%MatrixMarket matrix coordinate integer symmetric\n2 2 3\n1 1 10\n2 2 20\n2 1 0\n",
        NO_FIGURES,
    );
}

// A number of two thousand digits is a number, and too large.
pub fn long_number() {
    let mut text = [b'9'; 2056];
    text[..51].copy_from_slice(b"%%MatrixMarket matrix coordinate integer symmetric\n");
    text[2051..].copy_from_slice(b" 1 1\n");
    answers(&text, 15, 51);
}

// Expects the answer for a text that comes after line 1.
fn after_line_1(rest: &[u8], number: u32, place: usize)
    requires short { length rest.now ≤ 77 }
    requires answered { answers_to (after_line1 rest.now) number place ≡ true }
{
    let mut text = [0u8; 128];
    text[..51].copy_from_slice(b"%%MatrixMarket matrix coordinate integer symmetric\n");
    let end = 51 + rest.len();
    text[51..end].copy_from_slice(rest);
    answers(&text[..end], number, place);
}

// Expects the answer for a text.
fn answers(text: &[u8], number: u32, place: usize)
    requires { answers_to text.now number place ≡ true }
{
    check::expect(is_answer(figures::read(text), number, place));
}

// Expects these figures, whatever the answer.
fn reads_as(text: &[u8], expected: Figures)
    requires { reads_as text.now expected.n expected.counts expected.divisors ≡ true }
{
    check::expect(figures::read(text).unwrap_or(NO_FIGURES) == expected);
}

// Whether the reader answered so.
fn is_answer(found: Result<Figures, Fault>, number: u32, place: usize) -> bool
    ensures { result ≡ is_answer (result_of found) number place }
{
    match found {
        Ok(_) => number == 0 && place == 0,
        Err(fault) => u32::from(fault.why) == number && fault.at == place,
    }
}
