// Who serves what, and which goal is whose.
ghost use Rattle.std.specs.Prelude.{◌≡◌, map};
ghost use Rattle.std.specs.List.{list_any, list_all};
ghost use Rattle.library.specs.Layout.{library_of};
ghost use Rattle.model.specs.WellFormed.{is_served, is_goal_for, has_goal, is_posted, has_poster};
ghost use Rattle.jobs.specs.Jobs.{job_of};

use crate::Tested;
use jobs::Job;
use jobs::place::{branch, trigger_kind};
use model::{Event, Instance, Origin, Status};
use state::origin::{goal_of, is_goal};

// The goal is that of this suspended instance.
#[tactic(auto, unfolding(model::specs::Live::same_origin))]
fn is_posted(origin: Origin, job: &Job) -> bool
    ensures { result ≡ is_posted origin (job_of job.now) }
{
    job.instance.status == Status::Suspended && origin == goal_of(job.instance)
}

impl Tested<'_> {
    // The event that an instance serves: of its trigger's kind, its plan not among the failed.
    #[tactic(auto, unfolding(model::specs::WellFormed::is_served, model::specs::Live::same_origin))]
    fn is_served(&self, job: &Job, event: &Event) -> bool
        ensures { result ≡ is_served (library_of self.now.library.now) (job_of job.now) event.now }
    {
        job.origin == event.origin
            && trigger_kind(self.library, job.instance) == event.kind
            && !situation::failed::has(event.failed, job.instance.plan)
    }

    // An instance serves a queued event.
    fn has_event(&self, job: &Job) -> bool
        ensures { result ≡ list_any (is_served (library_of self.now.library.now) (job_of job.now)) self.now.queue.now }
    {
        self.queue.iter().any(|event| self.is_served(job, event))
    }

    // The goal of an instance: its kind and literal are the branch's under the instance's environment.
    #[tactic(auto, unfolding(literal::specs::Literal::same, model::specs::WellFormed::is_goal_for, model::specs::Live::same_origin))]
    fn is_goal_for(&self, x: Instance, event: &Event) -> bool
        ensures { result ≡ is_goal_for (library_of self.now.library.now) x event.now }
    {
        if goal_of(x) != event.origin {
            return false;
        }
        let tried = branch(self.library, x);
        tried.kind == event.kind && x.env.instantiated(tried.literal) == event.literal
    }

    // A suspended instance has its goal in the queue.
    #[tactic(auto, unfolding(model::specs::WellFormed::has_goal))]
    fn has_goal(&self, job: &Job) -> bool
        ensures { result ≡ has_goal (library_of self.now.library.now) self.now.queue.now (job_of job.now) }
    {
        let x = job.instance;
        x.status != Status::Suspended || self.queue.iter().any(|event| self.is_goal_for(x, event))
    }

    // A queued goal is that of some suspended instance.
    fn has_poster(&self, event: &Event) -> bool
        ensures { result ≡ has_poster (map job_of self.now.jobs.now) event.now }
    {
        let origin = event.origin;
        !is_goal(origin) || self.jobs.iter().any(|job| is_posted(origin, job))
    }

    // Each instance serves a queued event.
    pub(crate) fn all_served(&self) -> bool
        ensures { result ≡ list_all
            (λ job. list_any (is_served (library_of self.now.library.now) (job_of job)) self.now.queue.now) self.now.jobs.now }
    {
        self.jobs.iter().all(|job| self.has_event(job))
    }

    // Each suspended instance has its goal in the queue.
    pub(crate) fn have_goals(&self) -> bool
        ensures { result ≡ list_all
            (λ job. has_goal (library_of self.now.library.now) self.now.queue.now (job_of job)) self.now.jobs.now }
    {
        self.jobs.iter().all(|job| self.has_goal(job))
    }

    // Each queued goal is that of some suspended instance.
    pub(crate) fn have_posters(&self) -> bool
        ensures { result ≡ list_all (has_poster (map job_of self.now.jobs.now)) self.now.queue.now }
    {
        self.queue.iter().all(|event| self.has_poster(event))
    }
}
