// The numbers of kinds: what triggers a plan, and what an action or a branch does. Each has its number here and nowhere else.
ghost use Rattle.library.specs.Kinds.{NamesTrigger, NamesDeed};

// What triggers a plan, and what an event is: a belief added or removed, an event told, or a goal.
#[derive(Clone, Copy, PartialEq, Eq, Debug)]
pub enum Trigger {
    Added,
    Removed,
    Told,
    Achieve,
    Query,
}

// What a branch does: it adds or removes a belief, acts outside, achieves, queries or divides. An action of a list adds or removes.
#[derive(Clone, Copy, PartialEq, Eq, Debug)]
pub enum Deed {
    Add,
    Remove,
    Act,
    Achieve,
    Query,
    Divide,
}

// A number that names no kind.
#[derive(Clone, Copy, PartialEq, Eq, Debug)]
pub struct UnknownKind(pub u16);

impl TryFrom<u16> for Trigger {
    type Error = UnknownKind;

    ghost try_from_gives = { NamesTrigger };

    fn try_from(kind: u16) -> Result<Self, UnknownKind> {
        match kind {
            0 => Ok(Trigger::Added),
            1 => Ok(Trigger::Removed),
            2 => Ok(Trigger::Told),
            3 => Ok(Trigger::Achieve),
            4 => Ok(Trigger::Query),
            _ => Err(UnknownKind(kind)),
        }
    }
}

impl TryFrom<u16> for Deed {
    type Error = UnknownKind;

    ghost try_from_gives = { NamesDeed };

    fn try_from(kind: u16) -> Result<Self, UnknownKind> {
        match kind {
            0 => Ok(Deed::Add),
            1 => Ok(Deed::Remove),
            2 => Ok(Deed::Act),
            3 => Ok(Deed::Achieve),
            4 => Ok(Deed::Query),
            5 => Ok(Deed::Divide),
            _ => Err(UnknownKind(kind)),
        }
    }
}
