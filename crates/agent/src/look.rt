// What a line gives, told by a look at the stacks and the number of queued events, before anything moves.
ghost use Rattle.std.specs.Prelude.{◌≡◌, true, ◌≤◌, Some};
ghost use Rattle.model.specs.State.{most_stacks, cycle, outcome};
ghost use Rattle.reading.specs.Spoken.{meaning};
ghost use Rattle.agent.specs.Feed.{refusal_for};
ghost use Rattle.agent.specs.Look.{may_take_up, Looks};

use literal::Literal;
use model::{Answer, Number};
use reading::Spoken;
use refusals::Refusal;
use state::{MOST_STACKS, State, search};

// What a line that cannot be read is answered with: it is no call, so this is no refusal of one.
const UNREADABLE: Answer = Answer::Refused(0);

// An answer that leaves the state as it is; a report; a cycle in which some event may be taken up;
// one in which none may and the stack at a place runs; an outcome that the stack at a place waits for.
// The kind of a report is any 16 bits, as it was told: a narrower type would refuse here what the report's own step refuses.
#[derive(Clone, Copy)]
pub enum Look {
    Answered(Answer),
    Reports { kind: u16, literal: Literal },
    Searches,
    Turns(usize),
    Tells { place: usize, worked: bool },
}

// Whether some event may be taken up: each live instance serves one, and a pending one needs room for a stack or a suspended top.
#[tactic(auto, unfolding(crate::specs::Look::may_take_up))]
fn may_take_up(s: &State) -> bool
    ensures { result ≡ may_take_up s.now }
{
    search::live_count(s.standing()) < s.queued
        && (s.stacked < MOST_STACKS || search::has_sleeper(s.standing()))
}

fn look_at_cycle(s: &State) -> Look
    requires { s.now.stacked ≤ most_stacks }
    ensures { Looks true s.now (Some cycle) result }
{
    if may_take_up(s) {
        return Look::Searches;
    }
    match search::next_stack(s.standing()) {
        Some(place) => Look::Turns(place),
        None => Look::Answered(Answer::Idle),
    }
}

fn look_at_outcome(s: &State, id: Number, worked: bool) -> Look
    requires { s.now.stacked ≤ most_stacks }
    ensures { Looks true s.now (Some (outcome id worked)) result }
{
    match search::waiting_place(s.standing(), id) {
        Some(place) => Look::Tells { place, worked },
        None => Look::Answered(Answer::Refused(Refusal::NobodyWaits as u16)),
    }
}

// What a line is answered where the state is not well formed.
fn unformed_answer(spoken: Option<Spoken>) -> Answer
    ensures { result ≡ Answer.Refused (refusal_for (meaning spoken)) }
{
    match spoken {
        Some(_) => Answer::Refused(Refusal::NotFormed as u16),
        None => UNREADABLE,
    }
}

// The look at a line, by whether the state is well formed.
pub(crate) fn look_at(formed: bool, s: &State, spoken: Option<Spoken>) -> Look
    requires { formed ≡ true → s.now.stacked ≤ most_stacks }
    ensures { Looks formed s.now (meaning spoken) result }
{
    if !formed {
        return Look::Answered(unformed_answer(spoken));
    }
    let Some(call) = spoken else {
        return Look::Answered(UNREADABLE);
    };
    match call {
        Spoken::Report { kind, literal } => Look::Reports { kind, literal },
        Spoken::Cycle => look_at_cycle(s),
        Spoken::Outcome { id, worked } => look_at_outcome(s, id, worked),
    }
}
