// The belief table by value: a literal held, added or removed, and the rules for beliefs.
#![tactic(auto)]

ghost use Rattle.std.specs.Prelude.{◌≡◌, ◌-◌, ◌<◌, ◌≤◌, ◌&&◌, not, position};
ghost use Rattle.std.specs.List.{list_any};
ghost use Rattle.lists.specs.Gap.{close_gap};
ghost use Rattle.literal.specs.Literal.{is_ground, same, opposed};
ghost use Rattle.belief.specs.Beliefs.{size, view, holds, are_sound, fits};
ghost use Rattle.belief.specs.Table.{over, add, remove, is_table};

use literal::Literal;

// At most this many beliefs.
pub const MOST_BELIEFS: usize = 64;

// The beliefs are the first `count` items, oldest first; the other places are no part of the table.
// An array with a count: memory is fixed, and the kit's ArrayVec is no Copy.
#[derive(Clone, Copy)]
pub struct Beliefs {
    pub items: [Literal; MOST_BELIEFS],
    pub count: usize,
}

// A change of the beliefs: the literal is removed, or else added. A struct, as document 01 names it ("a slice of change structs"),
// so a flag: an enum of two cases with a literal each would be none.
#[derive(Clone, Copy)]
pub struct Change {
    pub removes: bool,
    pub literal: Literal,
}

// What an add or a removal did: nothing was to do, there was no room, the table changed, or an add took out the opposite.
#[derive(Clone, Copy, PartialEq, Eq)]
pub enum Effect {
    Nothing,
    Impossible,
    Changed,
    Replaced,
}

impl Effect {
    // What an add did, by what taking out the opposite did.
    fn over(self) -> Effect
        ensures { result ≡ over self }
    {
        match self {
            Effect::Nothing | Effect::Impossible => Effect::Changed,
            Effect::Changed | Effect::Replaced => Effect::Replaced,
        }
    }
}

// The table after an add or a removal, and what that did.
#[derive(Clone, Copy)]
pub struct Applied {
    pub table: Beliefs,
    pub effect: Effect,
}

// Whether the literal is one of them.
fn is_among(l: Literal, beliefs: &[Literal]) -> bool
    ensures { result ≡ list_any (same l) beliefs.now }
{
    beliefs.iter().any(|held| l.is_same(*held))
}

// The place of the literal among the beliefs.
#[tactic(auto, unfolding(literal::specs::Literal::same))]
fn place_of(l: Literal, beliefs: &[Literal]) -> Option<usize>
    ensures { result ≡ position (same l) beliefs.now }
{
    beliefs.iter().position(|held| l.is_same(*held))
}

// Whether the literal is ground, and no later one is the same or its opposite.
fn agrees(l: Literal, later: &[Literal]) -> bool
    ensures { result ≡ (is_ground l && (not (list_any (same l) later.now) && not (list_any (opposed l) later.now))) }
{
    l.is_ground() && !is_among(l, later) && !is_among(l.opposite(), later)
}

// Whether the literals are ground and all different, with no opposites.
#[tactic(auto, using(crate::proofs::TableSteps::sound_end))]
fn are_sound(beliefs: &[Literal]) -> bool
    ensures { result ≡ are_sound beliefs.now }
{
    for (i, l) in beliefs.iter().enumerate() {
        if !agrees(*l, &beliefs[i + 1..]) {
            return false;
        }
    }
    true
}

impl Beliefs {
    // The beliefs, oldest first.
    pub fn as_slice(&self) -> &[Literal]
        ensures { result.now ≡ view self.now }
    {
        &self.items[..self.size()]
    }

    // How many places are in use.
    pub fn size(&self) -> usize
        ensures { result ≡ size self.now }
    {
        self.count.min(MOST_BELIEFS)
    }

    // Whether the literal is a belief.
    #[tactic(auto, unfolding(crate::specs::Beliefs::holds))]
    pub fn holds(&self, l: Literal) -> bool
        ensures { result ≡ holds (view self.now) l }
    {
        is_among(l, self.as_slice())
    }

    // Whether an add of the literal fits: it is held, or takes out its opposite, or finds fewer than 64.
    #[tactic(auto, unfolding(crate::specs::Beliefs::fits))]
    pub fn has_room(&self, l: Literal) -> bool
        ensures { result ≡ fits (view self.now) l }
    {
        self.holds(l) || self.holds(l.opposite()) || self.count < MOST_BELIEFS
    }

    // The table without the literal; the others keep their order.
    #[tactic(auto, using(crate::proofs::TableSteps::remove_absent))]
    pub fn removed(self, l: Literal) -> Applied
        ensures { result ≡ remove self l }
    {
        let Some(place) = place_of(l, self.as_slice()) else {
            return Applied {
                table: self,
                effect: Effect::Nothing,
            };
        };
        let mut table = self;
        table.count = lists::take_out(&mut table.items, self.count, place);
        Applied {
            table,
            effect: Effect::Changed,
        }
    }

    // The table with the literal: last where it is new and there is room once its opposite is taken out.
    #[tactic(auto, using(crate::proofs::TableSteps::add_held, crate::proofs::TableSteps::add_full, crate::proofs::TableSteps::add_last))]
    pub fn added(self, l: Literal) -> Applied
        ensures { result ≡ add self l }
    {
        if self.holds(l) {
            return Applied {
                table: self,
                effect: Effect::Nothing,
            };
        }
        let other = l.opposite();
        let without = self.removed(other);
        let mut next = without.table;
        let n = next.count;
        if MOST_BELIEFS <= n {
            return Applied {
                table: self,
                effect: Effect::Impossible,
            };
        }
        next.count = lists::append(&mut next.items, n, l);
        Applied {
            table: next,
            effect: without.effect.over(),
        }
    }

    // The rules for beliefs: at most 64, all ground, all different, no opposites.
    #[tactic(auto, unfolding(crate::specs::Table::is_table))]
    pub fn is_table(&self) -> bool
        ensures { result ≡ is_table self.now }
    {
        self.count <= MOST_BELIEFS && are_sound(self.as_slice())
    }
}
