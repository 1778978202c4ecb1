// What is checked before anything is written (document 01, "Numbers answered").
ghost use Rattle.std.specs.Prelude.{◌≡◌};
ghost use Rattle.newick.specs.Results.{unprinted};
ghost use Rattle.newick.specs.Inner.{found};

use crate::{Refusal, texts, walks};
use relations::Set;

// Refusals 1, 6, 9, 7 and 10, in this order.
#[tactic(auto, using(crate::proofs::Refusals::found_in_turn, crate::proofs::Refusals::full_bounds))]
pub fn check(n: u32, costs: &[u64], lefts: &[u16], room: usize) -> Result<(), Refusal>
    ensures { found result ≡ unprinted n costs.now lefts.now room }
{
    // The set of all n is empty where n is not 1 to 15.
    let all = Set::all(n);
    if all == Set::EMPTY {
        return Err(Refusal::Relations);
    }
    let full = all.number as usize;
    if costs.len() <= full || lefts.len() <= full {
        return Err(Refusal::ShortColumn);
    }
    if room < texts::needed(n) {
        return Err(Refusal::ShortText);
    }
    let cost = costs[full];
    if cost == u64::MAX {
        return Err(Refusal::NoPlan);
    }
    if walks::meets_fault(lefts, all) {
        return Err(Refusal::NoTree);
    }
    Ok(())
}
