// The test of a library's bytes: what breaks the layout is refused, and a plan of an accepted library is handed out.
#![tactic(auto)]

ghost use Rattle.std.specs.Prelude.{◌≡◌};
ghost use Rattle.refusals.specs.Numbers.{number_in};
ghost use Rattle.accepted.specs.Refusal.{refusal_of, part_refusal_of, part_of};

use self::stages::{beliefs_ok, contents_fit, is_packed, plans_fit};
use library::contents::plan_count;
use library::plan::PlanRef;
use refusals::Refusal;

mod rules; // rules.rt: the rules for a plan
mod stages; // stages.rt: the stages of a refusal

// The library's refusal: its contents, their packing, its initial beliefs, then its plans.
#[tactic(auto, unfolding(crate::specs::Refusal::refusal_of))]
pub fn refusal(library: &[u8]) -> Result<(), Refusal>
    ensures { number_in result ≡ refusal_of library.now }
{
    if !contents_fit(library) {
        return Err(Refusal::Contents);
    }
    if !is_packed(library) {
        return Err(Refusal::Packing);
    }
    if !beliefs_ok(library) {
        return Err(Refusal::Beliefs);
    }
    if !plans_fit(library) {
        return Err(Refusal::Plans);
    }
    Ok(())
}

// The library's refusal, then that it has no such plan. Here and below a plan is asked for by library and number, document 01's form.
#[tactic(auto, unfolding(crate::specs::Refusal::part_refusal_of))]
pub fn plan_refusal(library: &[u8], plan: usize) -> Result<(), Refusal>
    ensures { number_in result ≡ part_refusal_of library.now plan }
{
    refusal(library)?;
    let plans = plan_count(library) as usize;
    if plans <= plan {
        return Err(Refusal::NoSuchPlan);
    }
    Ok(())
}

// The number of the same refusal, 0 where there is none: document 01's form for what goes with `plan_part`.
pub fn plan_part_refusal(library: &[u8], plan: usize) -> u16
    ensures { result ≡ part_refusal_of library.now plan }
{
    match plan_refusal(library, plan) {
        Ok(()) => 0,
        Err(refusal) => u16::from(refusal),
    }
}

// The bytes of a plan, as a part of the library's; where it is refused an empty part, document 01's form.
pub fn plan_part(library: &[u8], plan: usize) -> &[u8]
    ensures { result.now ≡ part_of library.now plan }
{
    let Ok(()) = plan_refusal(library, plan) else {
        return &library[..0];
    };
    let part = PlanRef {
        library,
        number: plan,
    };
    let offset = part.offset();
    &library[offset..offset + part.length()]
}
