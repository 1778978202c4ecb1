// Numbers as every crate takes them: a size, a row count and a divisor have 32 bits, and what is worked out from two of them has 64.
#![tactic(auto)]

ghost use Rattle.std.specs.Prelude.{◌≡◌, ◌+◌, ◌*◌, ◌<◌, ◌≤◌, length};
ghost use Rattle.std.proofs.lemmas.List.Edits.{sets};
ghost use Rattle.numbers.specs.Texts.{digit, decimal};

// The whole product: 64 bits hold it.
pub fn product(a: u32, b: u32) -> u64
    ensures { result ≡ a * b }
{
    u64::from(a) * u64::from(b)
}

// A number written in decimal from place `at` on; the place after it. By hand, since std's `write!` may fail and does not say when, and
// this never does.
#[tactic(auto, using(crate::proofs::Writing::digit_by_digit))]
pub fn put_decimal(x: u64, out: &mut [u8], at: usize) -> usize
    requires { at + length (decimal x) ≤ length out.old }
    ensures end { result ≡ at + length (decimal x) }
    ensures written { out.new ≡ sets out.old at (decimal x) }
{
    if x < 10 {
        out[at] = digit(x);
        return at + 1;
    }
    let last = put_decimal(x / 10, out, at);
    out[last] = digit(x % 10);
    last + 1
}

// The byte of a digit. (`char::from_digit` answers an `Option` of a `char`.)
fn digit(d: u64) -> u8
    requires { d < 10 }
    ensures { result ≡ digit d }
{
    b'0' + d as u8
}
