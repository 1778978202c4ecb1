// Where the divisor of a pair stands (document 01, "One numbering").
ghost use Rattle.std.specs.Prelude.{◌≡◌, ◌+◌, ◌-◌};
ghost use Rattle.relations.specs.Pairs.{place, before};

// The place of the pair of relations i and j, counted from 0. The order of the two names never matters.
#[tactic(auto, unfolding(crate::specs::Pairs::place))]
pub fn place(i: u32, j: u32) -> usize
    ensures { result ≡ place i j }
{
    place_below(i.min(j), i.max(j))
}

// The same for a caller who knows which name is the lower: all sizes are worked out with it.
#[tactic(auto, using(crate::proofs::Places::before_square))]
pub fn place_below(low: u32, high: u32) -> usize
    ensures { result ≡ before high + (low - 1) }
{
    // h(h-1) as the square less h, which needs no test for 0.
    let h = high.saturating_sub(1);
    let pairs = (numbers::product(h, h) - u64::from(h)) / 2;
    (pairs + u64::from(low.saturating_sub(1))) as usize
}
