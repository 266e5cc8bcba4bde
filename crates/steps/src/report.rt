// Report: a belief change, and an external event at the queue's end.
ghost use Rattle.std.specs.Prelude.{◌≡◌, ◌<◌, ltb};
ghost use Rattle.refusals.specs.Numbers.{number_in};
ghost use Rattle.belief.specs.Beliefs.{view};
ghost use Rattle.model.specs.State.{most_number};
ghost use Rattle.model.specs.Report.{is_reportable, is_overfull, report_refusal, report_changes, new_event, told_kind};
ghost use Rattle.trials.specs.Altered.{Alters};
ghost use Rattle.steps.specs.Report.{heard, TakesIn, Reports};

use crate::step;
use crate::step::Step;
use belief::Beliefs;
use library::kinds::Trigger;
use literal::Literal;
use model::{Answer, Event, MOST_EXTERNAL, MOST_NUMBER, Number, Origin};
use moves::{Numbering, QueueMove, StackMove};
use refusals::Refusal;
use state::queue::external_count;
use trials::changes;
use trials::changes::Altered;

// ---- A report

// What a device reports. The kind is a number: any 16 bits can be reported, so a narrower type would ask more of callers.
#[derive(Clone, Copy)]
pub struct Report {
    pub kind: u16,
    pub literal: Literal,
}

impl Report {
    // Whether its kind is one that devices report, of a ground literal.
    #[tactic(auto, unfolding(model::specs::Report::is_reportable))]
    fn is_reportable(self) -> bool
        ensures { result ≡ is_reportable self.kind self.literal }
    {
        model::is_reported(self.kind) && self.literal.is_ground()
    }

    // Whether it is an add that finds a full table.
    #[tactic(auto, unfolding(model::specs::Report::is_overfull))]
    fn is_overfull(self, b: &Beliefs) -> bool
        ensures { result ≡ is_overfull (view b.now) self.kind self.literal }
    {
        matches!(Trigger::try_from(self.kind), Ok(Trigger::Added)) && !b.has_room(self.literal)
    }

    // Whether it changes a belief: one that is told does not.
    fn is_change(self) -> bool
        ensures { result ≡ ltb self.kind told_kind }
    {
        matches!(
            Trigger::try_from(self.kind),
            Ok(Trigger::Added | Trigger::Removed)
        )
    }

    // What it does to the beliefs.
    #[tactic(auto, using(crate::proofs::ReportLaws::change_alters))]
    fn believed(self, b: &Beliefs) -> Altered
        ensures { Alters b.now (report_changes (view b.now) self.kind self.literal) result }
    {
        if self.is_change() {
            return changes::one_change(*b, changes::change_of(self.kind, self.literal));
        }
        Altered::untouched(*b)
    }

    // Its event, under a number.
    fn event(self, number: Number) -> Event
        ensures { result ≡ new_event number self.kind self.literal }
    {
        Event {
            origin: Origin::External(number),
            kind: self.kind,
            literal: self.literal,
            failed: 0,
        }
    }
}

// ---- Hearing it

// What a report is heard on: the beliefs, the queue and the number of events taken.
#[derive(Clone, Copy)]
pub struct Listener<'a> {
    pub beliefs: &'a Beliefs,
    pub events: &'a [Event],
    pub taken: Number,
}

impl Listener<'_> {
    // Why the report is not taken in.
    #[tactic(auto, unfolding(model::specs::Report::report_refusal))]
    fn refusal_of(&self, report: Report) -> Result<(), Refusal>
        ensures { number_in result ≡ report_refusal (heard self.now.beliefs.now self.now.events.now self.now.taken)
            report.kind report.literal }
    {
        if !report.is_reportable() {
            return Err(Refusal::Malformed);
        }
        if MOST_NUMBER <= self.taken {
            return Err(Refusal::NumbersSpent);
        }
        if MOST_EXTERNAL <= external_count(self.events) {
            return Err(Refusal::QueueFull);
        }
        if report.is_overfull(self.beliefs) {
            return Err(Refusal::TableFull);
        }
        Ok(())
    }

    // The report is taken in.
    fn taken_in(&self, report: Report) -> Step
        requires { self.now.taken < most_number }
        ensures { TakesIn self.now.beliefs.now self.now.taken report.kind report.literal result }
    {
        let number = self.taken + 1;
        Step {
            answer: Answer::Taken(number),
            altered: report.believed(self.beliefs),
            queue: QueueMove::Enqueue(report.event(number)),
            stacks: StackMove::Keep,
            stack: step::no_stack(),
            numbering: Numbering::Taken(number),
        }
    }

    // What the report does: it is taken in, or refused.
    #[tactic(auto, using(crate::proofs::ReportLaws::number_left))]
    pub fn hear(&self, report: Report) -> Step
        ensures { Reports self.now.beliefs.now self.now.events.now self.now.taken report.kind report.literal result }
    {
        match self.refusal_of(report) {
            Ok(()) => self.taken_in(report),
            Err(refusal) => Step::unchanged(*self.beliefs, Answer::Refused(u16::from(refusal))),
        }
    }
}
