// The rules for each instance, and that no two are alike.
ghost use Rattle.std.specs.Prelude.{◌≡◌, ◌&&◌};
ghost use Rattle.std.specs.List.{list_all};
ghost use Rattle.lists.specs.Search.{distinct};
ghost use Rattle.library.specs.Layout.{library_of};
ghost use Rattle.model.specs.Instance.{branch_of, is_action_kind, is_goal_kind};
ghost use Rattle.model.specs.WellFormed.{is_status, is_sound, is_instance};
ghost use Rattle.jobs.specs.Jobs.{job_of};
ghost use Rattle.formed.specs.Stored.{same_stored_id, same_stored_event};

use crate::Tested;
use crate::events::is_within;
use jobs::Job;
use jobs::place::{branch, branch_count, state_count};
use library::contents::plan_count;
use library::kinds::Deed;
use model::{Instance, Status};

// Achieve or query: what names no kind is tried as a query.
fn is_goal_kind(kind: u16) -> bool
    ensures { result ≡ is_goal_kind kind }
{
    matches!(
        Deed::try_from(kind),
        Ok(Deed::Achieve | Deed::Query) | Err(_)
    )
}

fn is_action_kind(kind: u16) -> bool
    ensures { result ≡ is_action_kind kind }
{
    matches!(Deed::try_from(kind), Ok(Deed::Act))
}

// Whether no two have one id, and no two serve one event.
fn are_distinct(jobs: &[Job]) -> bool
    ensures { result ≡ (distinct same_stored_id jobs.now && distinct same_stored_event jobs.now) }
{
    let mut rest = jobs;
    while let [job, others @ ..] = rest {
        let is_like = |other: &Job| job.instance.id == other.instance.id
            || job.origin == other.origin;
        if others.iter().any(is_like) {
            return false;
        }
        rest = others;
    }
    true
}

impl Tested<'_> {
    // A waiting instance's branch is external, a suspended one's a goal.
    #[tactic(auto, unfolding(model::specs::WellFormed::is_status))]
    fn is_status(&self, x: Instance) -> bool
        ensures { result ≡ is_status x.tried (branch_of (library_of self.now.library.now) x).kind x.status }
    {
        match x.status {
            Status::Active => true,
            Status::Waiting => 0 < x.tried && is_action_kind(branch(self.library, x).kind),
            Status::Suspended => 0 < x.tried && is_goal_kind(branch(self.library, x).kind),
        }
    }

    // Its plan, state, tried count and bound constants exist.
    #[tactic(auto, using(library::proofs::PartLaws::length_plans), unfolding(model::specs::WellFormed::is_sound))]
    fn is_sound(&self, x: Instance) -> bool
        ensures { result ≡ is_sound (library_of self.now.library.now) x }
    {
        x.plan < plan_count(self.library)
            && x.state < state_count(self.library, x)
            && x.tried <= branch_count(self.library, x)
            && x.env.is_env()
            && self.is_status(x)
    }

    #[tactic(auto, unfolding(model::specs::WellFormed::is_instance))]
    fn is_instance(&self, job: &Job) -> bool
        ensures { result ≡ is_instance (library_of self.now.library.now) self.now.made (job_of job.now) }
    {
        is_within(self.made, job.instance.id) && self.is_sound(job.instance)
    }

    // Each instance is sound, no two have one id, and no two serve one event.
    pub(crate) fn are_jobs(&self) -> bool
        ensures { result ≡ (list_all (λ job. is_instance (library_of self.now.library.now) self.now.made (job_of job)) self.now.jobs.now
            && (distinct same_stored_id self.now.jobs.now && distinct same_stored_event self.now.jobs.now)) }
    {
        self.jobs.iter().all(|job| self.is_instance(job)) && are_distinct(self.jobs)
    }
}
