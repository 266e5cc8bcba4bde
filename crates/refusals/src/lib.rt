// What a call is refused for: each refusal has one name, and the number of documents 01 and 02.
#![tactic(auto)]

ghost use Rattle.std.specs.Prelude.{◌≡◌};
ghost use Rattle.refusals.specs.Numbers.{number_of};

// A refusal; that a line cannot be read (0) is none.
#[derive(Clone, Copy, PartialEq, Eq, Debug)]
pub enum Refusal {
    // The library has under 4 bytes, over 32 plans or 64 beliefs, or contents or beliefs past its end.
    Contents = 1,
    // Its plans are not packed up to the last byte.
    Packing = 2,
    // An initial belief is not ground, or stands there twice, or beside its opposite.
    Beliefs = 3,
    // A plan breaks the rules, or ends elsewhere than its entry says.
    Plans = 4,
    // A report's kind is no such kind, or its literal is not ground.
    Malformed = 5,
    // 64 beliefs are held.
    TableFull = 6,
    // 32 external events are queued.
    QueueFull = 7,
    // No instance with this id waits.
    NobodyWaits = 8,
    // All numbers of events or of instances are used.
    NumbersSpent = 9,
    // A state or a belief table breaks the rules, or the library beside it is refused.
    NotFormed = 10,
    // The library has no plan of this number.
    NoSuchPlan = 11,
    // The bytes are no image.
    NoImage = 12,
    // The buffer is too short for the image.
    ImageRoom = 13,
    // The buffer is too short for the board.
    BoardRoom = 14,
    // Lists of more than 15 answers are asked for.
    LongLists = 15,
}

impl From<Refusal> for u16 {
    ghost from_gives = { λ refusal number. number ≡ number_of refusal };

    fn from(refusal: Refusal) -> u16 {
        refusal as u16
    }
}
