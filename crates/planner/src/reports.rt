// What the program prints (document 01, "Numbers answered").
ghost use Rattle.std.specs.Prelude.{◌≡◌, ◌+◌, ◌≤◌, ◌++◌, length};
ghost use Rattle.numbers.specs.Texts.{decimal};
ghost use Rattle.planner.specs.Plans.{number_of, place_of};
ghost use Rattle.planner.specs.Reports.{ROOM, line_of, refused_line, printed, output_of};

use crate::{Plan, Refusal};
use arrayvec::ArrayVec;
use figures::Fault;

// The most bytes that are read.
const LONGEST: usize = 8192;

// "More: 11 at place 8,192."
const TOO_LONG: Refusal = Refusal::File(Fault {
    why: figures::Refusal::Shape,
    at: LONGEST,
});

// The limit of every plan: 2^60, the highest.
const LIMIT: u64 = 1152921504606846976;

// How many models there are.
const MODELS: u32 = 3;

// The bytes to print and how many there are; what is past them is 0.
#[derive(Clone, Copy, Debug, PartialEq, Eq)]
pub struct Output {
    pub bytes: [u8; 512],
    pub length: usize,
}

// The room in which they are said: three lines have 324 at most. It is not handed out, since an `ArrayVec` is moved and not copied.
type Said = ArrayVec<u8, 512>;

// A line for each model, or the one line of a refusal.
pub fn report(text: &[u8]) -> Output
    ensures result { result ≡ output_of (printed text.now) }
{
    let out = said(text);
    let length = out.len();
    let mut bytes = [0; 512];
    bytes[..length].copy_from_slice(out.as_slice());
    Output { bytes, length }
}

// The same, said line by line.
fn said(text: &[u8]) -> Said
    ensures result { result.items ≡ printed text.now }
{
    if LONGEST < text.len() {
        return refused(TOO_LONG);
    }
    let mut out = Said::new();
    for model in 0..MODELS {
        let mut tree = [0; 64];
        match crate::plan(text, model, LIMIT, &mut tree) {
            Ok(plan) => put_line(&mut out, model, plan, &tree[..plan.length]),
            Err(why) => return refused(why),
        }
    }
    out
}

// The line of a refusal alone.
#[tactic(auto, using(crate::proofs::Reported::refused_most))]
fn refused(why: Refusal) -> Said
    ensures { result.items ≡ refused_line (number_of why) (place_of why) }
{
    let mut out = Said::new();
    put_refusal(&mut out, u32::from(why), why.place());
    out
}

// The line of a refusal.
#[tactic(auto, unfolding(crate::specs::Reports::refused_line))]
fn put_refusal(out: &mut Said, number: u32, place: usize)
    requires { length out.old.items + length (refused_line number place) ≤ ROOM }
    ensures { out.new.items ≡ out.old.items ++ refused_line number place }
{
    put(out, b"refused ");
    put_number(out, u64::from(number));
    put(out, b" at ");
    put_number(out, place as u64);
    put(out, b"\n");
}

// The line of a model's plan.
#[tactic(auto, unfolding(crate::specs::Reports::spaced, crate::specs::Reports::line_of))]
fn put_line(out: &mut Said, model: u32, plan: Plan, tree: &[u8])
    requires { length out.old.items + length (line_of model plan.cost plan.size tree.now) ≤ ROOM }
    ensures { out.new.items ≡ out.old.items ++ line_of model plan.cost plan.size tree.now }
{
    put_number(out, u64::from(model));
    put(out, b" ");
    put_number(out, plan.cost);
    put(out, b" ");
    put_number(out, u64::from(plan.size));
    put(out, b" ");
    put(out, tree);
    put(out, b"\n");
}

// A number in decimal.
#[tactic(auto, using(crate::proofs::Writing::digits_64))]
fn put_number(out: &mut Said, x: u64)
    requires { length out.old.items + length (decimal x) ≤ ROOM }
    ensures { out.new.items ≡ out.old.items ++ decimal x }
{
    let mut digits = [0; 20];
    let end = numbers::put_decimal(x, &mut digits, 0);
    put(out, &digits[..end]);
}

// Bytes for which there is room. (`write!` into such a room does not promise that it succeeds.)
fn put(out: &mut Said, text: &[u8])
    requires { length out.old.items + length text.now ≤ ROOM }
    ensures { out.new.items ≡ out.old.items ++ text.now }
{
    let _fits = out.try_extend_from_slice(text);
}
