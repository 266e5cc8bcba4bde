// The four stages of a library's refusal, each over the whole library.
ghost use Rattle.std.specs.Prelude.{◌≡◌, ◌≤◌, ◌||◌};
ghost use Rattle.std.specs.List.{list_all};
ghost use Rattle.lists.specs.Search.{distinct};
ghost use Rattle.literal.specs.Literal.{is_ground, same, opposed};
ghost use Rattle.library.specs.Layout.{belief_count, beliefs_of};
ghost use Rattle.accepted.specs.Refusal.{contents_fit, is_packed, plans_fit};
ghost use Rattle.accepted.specs.Rules.{most_beliefs, beliefs_ok};

use super::rules::plan_fits;
use belief::MOST_BELIEFS;
use library::MOST_PLANS;
use library::bytes::{LITERAL_BYTES, no_literal};
use library::contents::{ENTRY_BYTES, HEADER_BYTES, belief_count, plan_count};
use library::plan::PlanRef;
use literal::Literal;

// 1: the contents and the beliefs are there.
#[tactic(auto, unfolding(crate::specs::Refusal::contents_fit, library::specs::Layout::plans_off))]
pub(crate) fn contents_fit(library: &[u8]) -> bool
    ensures { result ≡ contents_fit library.now }
{
    let plans = plan_count(library);
    let beliefs = belief_count(library) as usize;
    HEADER_BYTES <= library.len()
        && plans <= MOST_PLANS
        && beliefs <= MOST_BELIEFS
        && HEADER_BYTES + ENTRY_BYTES * plans as usize + LITERAL_BYTES * beliefs <= library.len()
}

// 2: the plans are packed in the entries' order, up to the last byte.
pub(crate) fn is_packed(library: &[u8]) -> bool
    ensures { result ≡ is_packed library.now }
{
    let plans = plan_count(library) as usize;
    let beliefs = belief_count(library) as usize;
    let mut at = HEADER_BYTES + ENTRY_BYTES * plans + LITERAL_BYTES * beliefs;
    for number in 0..plans {
        let plan = PlanRef { library, number };
        if plan.offset() != at {
            return false;
        }
        at += plan.length();
    }
    at == library.len()
}

// Whether every literal is ground.
fn all_ground(beliefs: &[Literal]) -> bool
    ensures { result ≡ list_all is_ground beliefs.now }
{
    beliefs.iter().all(|belief| belief.is_ground())
}

// Whether none is the same as a later one, and none its opposite.
fn all_apart(beliefs: &[Literal]) -> bool
    ensures { result ≡ distinct (λ l m. same l m || opposed l m) beliefs.now }
{
    let mut rest = beliefs;
    while let [belief, others @ ..] = rest {
        let opposite = belief.opposite();
        if others
            .iter()
            .any(|other| belief.is_same(*other) || opposite.is_same(*other))
        {
            return false;
        }
        rest = others;
    }
    true
}

// 3: the initial beliefs are ground and all different, with no opposites. They are read once, for all the pairs; for none no room is made.
pub(crate) fn beliefs_ok(library: &[u8]) -> bool
    requires { belief_count library.now ≤ most_beliefs }
    ensures { result ≡ beliefs_ok (beliefs_of library.now) }
{
    let count = belief_count(library) as usize;
    if count == 0 {
        return true;
    }
    let mut literals = [no_literal(); MOST_BELIEFS];
    let beliefs = &mut literals[..count];
    for (place, literal) in beliefs.iter_mut().enumerate() {
        *literal = library::contents::belief(library, place);
    }
    all_ground(beliefs) && all_apart(beliefs)
}

// 4: every plan keeps the rules, and ends where its entry says.
pub(crate) fn plans_fit(library: &[u8]) -> bool
    ensures { result ≡ plans_fit library.now }
{
    let plans = plan_count(library) as usize;
    (0..plans).all(|number| plan_fits(&PlanRef { library, number }))
}
