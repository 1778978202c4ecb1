// What a join costs beside its two trees (document 01, "Costs"). A size is any u32, and nothing overflows.
#![tactic(auto)]

ghost use Rattle.std.specs.Prelude.{◌≡◌, ◌+◌, ◌^◌, ◌<◌, ◌≤◌, min};
ghost use Rattle.charges.specs.Charges.{up, log2, w, sort_merge, disk_loops, priced, answer};

use numbers::product;

// The refusal of a model that there is not.
#[derive(Clone, Copy, Debug, PartialEq, Eq)]
pub struct UnknownModel;

// The charge under `model` of joining sizes a and b into size o. This is the one list of the models, by number: document 01 names the form
// ("Which places take which form"), and so a model is its number everywhere.
#[tactic(auto, using(crate::proofs::Laws::unknown), unfolding(crate::specs::Charges::priced))]
pub fn charge(model: u32, a: u32, b: u32, o: u32) -> Result<u64, UnknownModel>
    ensures { answer result ≡ priced model a b o }
{
    match model {
        0 => Ok(u64::from(o)),
        1 => Ok(sort_merge(a, b)),
        2 => Ok(disk_loops(a, b, o)),
        3..=4294967295 => Err(UnknownModel),
    }
}

// ---- the models

// Model 1.
#[tactic(auto, using(crate::proofs::Laws::w_bounded), unfolding(crate::specs::Charges::sort_merge))]
fn sort_merge(a: u32, b: u32) -> u64
    ensures { result ≡ sort_merge a b }
{
    w(a) + w(b)
}

// "Ten rows a block".
const BLOCK: u64 = 10;

// "100 blocks of memory": a block read serves the pairs of its 10 rows with the 10 of each of 99 blocks held.
const PAIRS: u64 = 9900;

// Model 2: what is written and read back of the result, and what is read of the two parts.
#[tactic(auto, using(crate::proofs::Rounding::up_near), unfolding(crate::specs::Charges::disk_loops))]
fn disk_loops(a: u32, b: u32, o: u32) -> u64
    ensures { result ≡ disk_loops a b o }
{
    let result = 2 * quick_up(u64::from(o), BLOCK);
    let pairs = quick_up(product(a, b), PAIRS);
    let smaller = quick_up(u64::from(a.min(b)), BLOCK);
    result + pairs + smaller
}

// The work of sorting x rows.
#[tactic(auto, unfolding(crate::specs::Charges::w))]
pub fn w(x: u32) -> u64
    ensures { result ≡ w x }
{
    u64::from(x) * (1 + u64::from(log2(x)))
}

// The whole part of x's base-two logarithm by its leading zeros, as document 01 has it, and 0 for 0: with its last digit set, a number that
// is not 0 keeps its highest digit, and 0 becomes 1.
#[tactic(auto, using(crate::proofs::Log::log_leading))]
fn log2(x: u32) -> u32
    ensures { result ≡ log2 x }
{
    31 - (x | 1).leading_zeros()
}

// x / d, rounded up.
#[tactic(auto, unfolding(crate::specs::Charges::up))]
pub fn up(x: u64, d: u64) -> u64
    requires { 0 < d }
    ensures { result ≡ up x d }
{
    x.div_ceil(d)
}

// The same where x + d - 1 cannot overflow. It stands in the innermost loop, which takes longer with the test of the remainder that
// `div_ceil` makes (docs/SPEED.md).
#[tactic(auto, using(crate::proofs::Rounding::up_quick))]
fn quick_up(x: u64, d: u64) -> u64
    requires { (0 < d) × (x + d ≤ 2 ^ 64) }
    ensures { result ≡ up x d }
{
    (x + (d - 1)) / d
}
