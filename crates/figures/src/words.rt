// Where a line or a word ends, and the numbers that words are (document 01, "Figures file").
ghost use Rattle.std.specs.Prelude.{◌≡◌, ◌+◌, ◌-◌, ◌*◌, ◌≤◌, ◌<◌, drop, length, IfSome};
ghost use Rattle.figures.specs.Lines.{numbers_of};
ghost use Rattle.figures.specs.Inner.{first_of, held, word_of, words_of};

// The largest number that a file may say, and the next, at which a number is held: it stands for all that are too large, since the shape of
// a whole line is judged before the size of its numbers.
pub const LARGEST: u64 = 4294967295;

const HELD: u64 = 4294967296;

// How many bytes from `from` on come before the first byte `b`, where there is one.
pub fn len_before(text: &[u8], b: u8, from: usize) -> Option<usize>
    ensures first { result ≡ first_of b (drop from text.now) }
    ensures within { IfSome result (λ len. from + len < length text.now) }
{
    text.iter().skip(from).position(|c| *c == b)
}

// The three numbers of a line: three words, one space between them, and each a number, held. The line is cut before its digits are read, so
// that one of four words is refused at once.
pub fn three(line: &[u8]) -> Option<(u64, u64, u64)>
    ensures { result ≡ words_of (numbers_of line.now) }
{
    let mut words = line.split(|c| *c == b' ');
    let first = words.next()?;
    let second = words.next()?;
    let third = words.next()?;
    if words.next().is_some() {
        return None;
    }
    let a = number(first)?;
    let b = number(second)?;
    let c = number(third)?;
    Some((a, b, c))
}

// The number that a word is, held: "decimal without sign or leading zeros (0 is "0")". It may have any number of digits.
pub fn number(word: &[u8]) -> Option<u64>
    ensures { result ≡ word_of word.now }
{
    if word.is_empty() {
        return None;
    }
    if word[0] == b'0' && word.len() > 1 {
        return None;
    }
    let mut value: u64 = 0;
    for c in word {
        if !c.is_ascii_digit() {
            return None;
        }
        value = with_digit(value, *c);
    }
    Some(value)
}

// The value with one more digit, held.
fn with_digit(value: u64, c: u8) -> u64
    requires { (value ≤ 4294967296) × (48 ≤ c) }
    ensures { result ≡ held (10 * value + (c - 48)) }
{
    (10 * value + u64::from(c - b'0')).min(HELD)
}
