// The words behind the program's name, as what it is asked to do.
#![tactic(auto)]

ghost use Rattle.std.specs.Prelude.{◌≡◌};
ghost use Rattle.command.specs.Mode.{words_of, endings_mode, one_word, three_words, mode_of};

// The journal; the journal of a shift, from image to image; the board; how a plan may end after lists of so many answers.
#[derive(Clone, Copy)]
pub enum Mode {
    Journal,
    Shift,
    Board,
    Endings { plan: u16, length: u16 },
}

// The words behind `endings`: a plan and a length.
#[tactic(auto, unfolding(crate::specs::Mode::endings_mode))]
fn endings_mode(plan: &[u8], length: &[u8]) -> Option<Mode>
    ensures { result ≡ endings_mode plan.now length.now }
{
    let p = reading::read_number(plan)?;
    let n = reading::read_number(length)?;
    Some(Mode::Endings { plan: p, length: n })
}

// Modes of one word.
#[tactic(auto, unfolding(crate::specs::Mode::one_word))]
fn one_word(name: &[u8]) -> Option<Mode>
    ensures { result ≡ one_word name.now }
{
    if name == b"shift".as_slice() {
        return Some(Mode::Shift);
    }
    if name == b"board".as_slice() {
        return Some(Mode::Board);
    }
    None
}

// Modes of three words.
#[tactic(auto, unfolding(crate::specs::Mode::three_words))]
fn three_words(name: &[u8], first: &[u8], second: &[u8]) -> Option<Mode>
    ensures { result ≡ three_words name.now first.now second.now }
{
    if name == b"endings".as_slice() {
        return endings_mode(first, second);
    }
    None
}

// By how many words there are, the program's own name among them, and the first three behind it; none where they ask for nothing.
#[tactic(auto, using(crate::proofs::ModeLaws::words))]
pub fn mode_of(count: usize, name: &[u8], first: &[u8], second: &[u8]) -> Option<Mode>
    ensures { result ≡ mode_of (words_of count name.now first.now second.now) }
{
    match count {
        0 | 1 => Some(Mode::Journal),
        2 => one_word(name),
        4 => three_words(name, first, second),
        _ => None,
    }
}
