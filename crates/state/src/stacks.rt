// The intention stacks: those in use, one more or less, and an instance more or less on one.
// A place and a stack are two parameters: a struct of both, made for each change, would be no plainer.
ghost use Rattle.std.specs.Prelude.{◌≡◌, ◌+◌, ◌-◌, ◌<◌, length, take};
ghost use Rattle.state.specs.View.{depth_of, stacked_of};
ghost use Rattle.state.specs.Stacks.{push, pop, under_top, open_last, put_at, drop_at, turn_last};

use crate::{MOST_BELOW, MOST_STACKS, Stack, State};
use model::Instance;

impl State {
    // The stacks in use, in turn order.
    pub fn standing(&self) -> &[Stack]
        ensures value { result.now ≡ take (stacked_of self.now) self.now.stacks }
        ensures len { length result.now ≡ stacked_of self.now }
    {
        &self.stacks[..self.stacked.min(MOST_STACKS)]
    }

    // One stack more, last in turn; nothing changes where there is no room.
    #[tactic(auto, using(crate::proofs::RowLaws::stack_rows))]
    pub fn open_last(&mut self, stack: Stack)
        ensures { self.new ≡ open_last self.old stack }
    {
        self.stacked = lists::append(&mut self.stacks, self.stacked, stack);
    }

    // Another stack at a place; nothing changes where no stack stands there.
    #[tactic(auto, using(crate::proofs::RowLaws::stack_rows))]
    pub fn put_at(&mut self, place: usize, stack: Stack)
        ensures { self.new ≡ put_at self.old place stack }
    {
        lists::put_at(&mut self.stacks, self.stacked, place, stack);
    }

    // Without the stack at a place; nothing changes where no stack stands there.
    #[tactic(auto, using(crate::proofs::RowLaws::stack_rows))]
    pub fn drop_at(&mut self, place: usize)
        ensures { self.new ≡ drop_at self.old place }
    {
        self.stacked = lists::take_out(&mut self.stacks, self.stacked, place);
    }

    // Without the stack at a place, and another last in turn.
    #[tactic(auto, using(crate::proofs::RowLaws::stack_rows))]
    pub fn turn_last(&mut self, place: usize, stack: Stack)
        ensures { self.new ≡ turn_last self.old place stack }
    {
        self.stacked = lists::turn_last(&mut self.stacks, self.stacked, place, stack);
    }
}

impl Stack {
    // How many instances are below the top.
    pub fn depth(&self) -> usize
        ensures { result ≡ depth_of self.now }
    {
        self.depth.min(MOST_BELOW)
    }

    // The instances below the top, the bottom first.
    pub fn beneath(&self) -> &[Instance]
        ensures value { result.now ≡ take (depth_of self.now) self.now.below }
        ensures len { length result.now ≡ depth_of self.now }
    {
        &self.below[..self.depth()]
    }

    // With one instance more on top; nothing changes where there is no room.
    #[tactic(auto, unfolding(crate::specs::Stacks::push))]
    pub fn pushed(&self, x: Instance) -> Stack
        ensures { result ≡ push self.now x }
    {
        let mut next = *self;
        if MOST_BELOW <= self.depth {
            return next;
        }
        next.depth = lists::append(&mut next.below, self.depth, self.top);
        next.top = x;
        next
    }

    // The instance below the top; of a stack with none, the first place's.
    #[tactic(auto, unfolding(crate::specs::Stacks::under_top))]
    pub fn under_top(&self) -> Instance
        ensures { result ≡ under_top self.now }
    {
        self.below[self.depth().saturating_sub(1)]
    }

    // Without its top, another instance in the place of the one below it.
    #[tactic(auto, unfolding(crate::specs::Stacks::pop))]
    pub fn popped(&self, x: Instance) -> Stack
        ensures { result ≡ pop self.now x }
    {
        Stack {
            top: x,
            depth: self.depth().saturating_sub(1),
            ..*self
        }
    }
}
