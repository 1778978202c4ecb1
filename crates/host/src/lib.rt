// The one call for a C host (document 01, "Numbers answered"). include/buffermoss.h declares it.
#![tactic(auto)]

ghost use Rattle.std.specs.Prelude.{◌≡◌};
ghost use Rattle.planner.specs.Plans.{planned};
ghost use Rattle.host.specs.Returned.{result_of, called};

// The cheapest plan for the figures that `text` says, written at the start of `tree`: 1,000 plus its length, or the number of the refusal.
#[tactic(auto, using(planner::proofs::Outcomes::number_pos), unfolding(crate::specs::Returned::returned, crate::specs::Returned::called))]
#[unsafe(no_mangle)]
pub extern "C" fn buffermoss_plan(text: &[u8], model: u32, limit: u64, tree: &mut [u8]) -> u32
    ensures result { result_of result tree.new ≡ called (planned text.now model limit tree.old) }
{
    match planner::plan(text, model, limit, tree) {
        Ok(plan) => 1000 + plan.length as u32,
        Err(why) => u32::from(why),
    }
}
