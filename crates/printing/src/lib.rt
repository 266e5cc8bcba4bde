// A result to its line of the journal, into a lent buffer.
#![tactic(auto)]

ghost use Rattle.std.specs.Prelude.{◌≡◌, true, ◌+◌, ◌*◌, ◌≤◌, ◌<◌, ◌∷◌, [], ◌++◌, length};
ghost use Rattle.model.specs.State.{view_result};
ghost use Rattle.lists.specs.Counts.{each};
ghost use Rattle.std.specs.List.{list_all};
ghost use Rattle.model.specs.Lines.{M, number, fields_of};
ghost use Rattle.printing.specs.Decimal.{decimal, last_two, last_four};
ghost use Rattle.printing.specs.LineText.{space, sign_byte, change_byte, letter_byte, number_text, literal_text, field_text, change_text, answer_text, is_try, is_head, fits_field, fits_change, most_fields, most_change};
ghost use Rattle.writing.specs.Writing.{Wrote};
ghost use Rattle.printing.specs.Prints.{Prints, PrintsPair};

use belief::Change;
use literal::{Literal, NEGATIVE};
use model::{Answer, Answered, MOST_CHANGES, Number};

// How many bytes the longest letter with its fields has: D with three numbers and a literal.
const MOST_FIELDS: usize = 49;

// How many bytes the longest change has.
const MOST_CHANGE: usize = 27;

// How many bytes the longest line has, with its newline.
pub const MOST_LINE: usize = MOST_FIELDS + MOST_CHANGE * MOST_CHANGES + 1;

// How many bytes the longest line of two numbers has, with its newline.
const MOST_PAIR: usize = 22;

// The byte of the digit 0.
const ZERO: u8 = 48;

// ---- Bytes and numbers

// By hand: a number takes itoa's Buffer 1.19 times as long, and write! over the lent buffer 1.34 times (ten million numbers of 16 bits).

fn put(out: &mut [u8], at: usize, byte: u8) -> usize
    requires { at + 1 ≤ length out.old }
    ensures { Wrote 1 out.old out.new at result (byte ∷ []) }
{
    out[at] = byte;
    at + 1
}

// Two digits.
fn put_two(out: &mut [u8], at: usize, n: u16) -> usize
    requires { (n < 100) × (at + 2 ≤ length out.old) }
    ensures { Wrote 2 out.old out.new at result (last_two n) }
{
    let a = put(out, at, ZERO + (n / 10) as u8);
    put(out, a, ZERO + (n % 10) as u8)
}

// Four digits.
fn put_four(out: &mut [u8], at: usize, n: u16) -> usize
    requires { (n < 10000) × (at + 4 ≤ length out.old) }
    ensures { Wrote 4 out.old out.new at result (last_four n) }
{
    let a = put_two(out, at, n / 100);
    put_two(out, a, n % 100)
}

// One digit or two.
#[tactic(auto, using(crate::proofs::DecimalLaws::short))]
fn put_short(out: &mut [u8], at: usize, n: u16) -> usize
    requires { (n < 100) × (at + 2 ≤ length out.old) }
    ensures { Wrote 2 out.old out.new at result (decimal n) }
{
    if n < 10 {
        return put(out, at, ZERO + n as u8);
    }
    put_two(out, at, n)
}

fn put_decimal(out: &mut [u8], at: usize, n: u16) -> usize
    requires { at + 5 ≤ length out.old }
    ensures { Wrote 5 out.old out.new at result (decimal n) }
{
    if n < 100 {
        return put_short(out, at, n);
    }
    if n < 10000 {
        let a = put_short(out, at, n / 100);
        return put_two(out, a, n % 100);
    }
    let a = put(out, at, ZERO + (n / 10000) as u8);
    put_four(out, a, n % 10000)
}

// A byte, as a space or a sign, and a number.
#[tactic(auto, using(writing::proofs::WritingLaws::then))]
fn put_number(out: &mut [u8], at: usize, lead: u8, n: u16) -> usize
    requires { at + 6 ≤ length out.old }
    ensures { Wrote 6 out.old out.new at result (lead ∷ decimal n) }
{
    let a = put(out, at, lead);
    put_decimal(out, a, n)
}

// A number of up to ten digits.
fn put_wide(out: &mut [u8], at: usize, n: u32) -> usize
    requires { at + 10 ≤ length out.old }
    ensures { Wrote 10 out.old out.new at result (decimal n) }
{
    if n < 10000 {
        return put_decimal(out, at, n as u16);
    }
    if n < 100000000 {
        let a = put_decimal(out, at, (n / 10000) as u16);
        return put_four(out, a, (n % 10000) as u16);
    }
    let a = put_short(out, at, (n / 100000000) as u16);
    let b = put_four(out, a, (n / 10000 % 10000) as u16);
    put_four(out, b, (n % 10000) as u16)
}

// A space and a number of up to ten digits.
#[tactic(auto, using(writing::proofs::WritingLaws::then))]
fn put_field(out: &mut [u8], at: usize, n: u32) -> usize
    requires { at + 11 ≤ length out.old }
    ensures { Wrote 11 out.old out.new at result (number_text n) }
{
    let a = put(out, at, b' ');
    put_wide(out, a, n)
}

// ---- Literals and changes

fn sign_of(head: u16) -> u8
    ensures { result ≡ sign_byte head }
{
    if head < NEGATIVE { b'+' } else { b'-' }
}

fn put_literal(out: &mut [u8], at: usize, l: Literal) -> usize
    requires { at + 25 ≤ length out.old }
    ensures wrote { Wrote 25 out.old out.new at result (literal_text l) }
    ensures fits { is_head l ≡ true }
{
    let sign = sign_of(l.head);
    let a = put(out, at, b' ');
    let b = put_number(out, a, sign, l.head % NEGATIVE);
    let c = put_number(out, b, b' ', l.first);
    let d = put_number(out, c, b' ', l.second);
    put_number(out, d, b' ', l.third)
}

fn letter_of(removes: bool) -> u8
    ensures { result ≡ change_byte removes }
{
    if removes { b'r' } else { b'a' }
}

#[tactic(auto, using(writing::proofs::WritingLaws::then), unfolding(crate::specs::LineText::change_text))]
fn put_change(out: &mut [u8], at: usize, c: Change) -> usize
    requires { at + most_change ≤ length out.old }
    ensures wrote { Wrote most_change out.old out.new at result (change_text c) }
    ensures fits { fits_change c ≡ true }
{
    let l = c.literal;
    let letter = letter_of(c.removes);
    let a = put(out, at, b' ');
    let b = put(out, a, letter);
    put_literal(out, b, l)
}

// A loop of its own beside image's over events and stacks: a shared one would take an item's writer, and prove its contract at each call.
fn put_changes(out: &mut [u8], at: usize, changes: &[Change]) -> usize
    requires { at + most_change * length changes.now ≤ length out.old }
    ensures wrote { Wrote (most_change * length changes.now) out.old out.new at result (each change_text changes.now) }
    ensures fits { list_all fits_change changes.now ≡ true }
{
    let mut o = at;
    for c in changes {
        o = put_change(out, o, *c);
    }
    o
}

// ---- The letter and its fields

#[tactic(auto, using(crate::proofs::TextLaws::lettered), unfolding(crate::specs::LineText::field_text))]
fn put_one(out: &mut [u8], at: usize, letter: u8, n: Number) -> usize
    requires { at + 12 ≤ length out.old }
    ensures { Wrote 12 out.old out.new at result (letter ∷ each field_text (number n ∷ [])) }
{
    let a = put(out, at, letter);
    put_field(out, a, n)
}

// The instance, its state and its branch.
fn put_three(
    out: &mut [u8],
    at: usize,
    letter: u8,
    instance: Number,
    state: u16,
    branch: u16,
) -> usize
    requires { at + 24 ≤ length out.old }
    ensures { Wrote 24 out.old out.new at result
        (letter ∷ each field_text (number instance ∷ number state ∷ number branch ∷ [])) }
{
    let a = put(out, at, letter);
    let b = put_field(out, a, instance);
    let c = put_number(out, b, b' ', state);
    put_number(out, c, b' ', branch)
}

// The instance made, its plan, and e or g with the number of what it was made for.
fn put_made(out: &mut [u8], at: usize, instance: Number, plan: u16, word: u8, n: Number) -> usize
    requires { at + 31 ≤ length out.old }
    ensures { Wrote 31 out.old out.new at result
        (letter_byte M ∷ (number_text instance ++ (number_text plan ++ (space ∷ word ∷ number_text n)))) }
{
    let a = put(out, at, b'M');
    let b = put_field(out, a, instance);
    let c = put_number(out, b, b' ', plan);
    let d = put(out, c, b' ');
    let e = put(out, d, word);
    put_field(out, e, n)
}

// S, B, D and G: what came of a branch.
#[tactic(auto, using(crate::proofs::TextLaws::tried), unfolding(model::specs::Lines::fields_of))]
fn put_try(out: &mut [u8], at: usize, answer: Answer) -> usize
    requires is_a_try { is_try answer ≡ true }
    requires room { at + most_fields ≤ length out.old }
    ensures wrote { Wrote most_fields out.old out.new at result (answer_text answer) }
    ensures fits { list_all fits_field (fields_of answer) ≡ true }
{
    match answer {
        Answer::Stepped {
            instance,
            state,
            branch,
            next,
        } => {
            let a = put_three(out, at, b'S', instance, state, branch);
            put_number(out, a, b' ', next)
        }
        Answer::Missed {
            instance,
            state,
            branch,
        } => put_three(out, at, b'B', instance, state, branch),
        Answer::Done {
            instance,
            state,
            branch,
            literal,
        } => {
            let a = put_three(out, at, b'D', instance, state, branch);
            put_literal(out, a, literal)
        }
        Answer::Posted {
            instance,
            state,
            branch,
        } => put_three(out, at, b'G', instance, state, branch),
        _ => at,
    }
}

#[tactic(auto, using(crate::proofs::TextLaws::answered), unfolding(model::specs::Lines::fields_of))]
fn put_answer(out: &mut [u8], at: usize, answer: Answer) -> usize
    requires { at + most_fields ≤ length out.old }
    ensures wrote { Wrote most_fields out.old out.new at result (answer_text answer) }
    ensures fits { list_all fits_field (fields_of answer) ≡ true }
{
    match answer {
        Answer::Taken(n) => put_one(out, at, b'T', n),
        Answer::Idle => put(out, at, b'I'),
        Answer::Dropped { external, failures } => {
            let a = put_one(out, at, b'N', external);
            put_field(out, a, failures)
        }
        Answer::Unmet {
            instance,
            state,
            branch,
            failures,
        } => {
            let a = put_three(out, at, b'U', instance, state, branch);
            put_field(out, a, failures)
        }
        Answer::MadeExternal {
            instance,
            plan,
            external,
        } => put_made(out, at, instance, plan, b'e', external),
        Answer::MadeGoal {
            instance,
            plan,
            poster,
        } => put_made(out, at, instance, plan, b'g', poster),
        Answer::Succeeded(instance) => put_one(out, at, b'E', instance),
        Answer::Failed(instance) => put_one(out, at, b'F', instance),
        Answer::Refused(n) => put_one(out, at, b'X', n as u32),
        _ => put_try(out, at, answer),
    }
}

// ---- The line

// The line of a result, with its newline, from `at` on; where there is no room for the longest line, nothing.
#[tactic(auto, using(crate::proofs::LineLaws::unprinted))]
pub fn print_result(out: &mut [u8], at: usize, r: Answered) -> usize
    ensures { Prints out.old out.new at result (view_result r) }
{
    let room = out.len();
    if room < MOST_LINE {
        return at;
    }
    if room - MOST_LINE < at {
        return at;
    }
    let n = r.count.min(MOST_CHANGES);
    // By itself: lent out of the result, they would have the whole of it copied before its answer is read.
    let changes = r.changes;
    let a = put_answer(out, at, r.answer);
    let b = put_changes(out, a, &changes[..n]);
    put(out, b, b'\n')
}

// Two numbers on a line of their own, from `at` on; where there is no room for the longest such line, nothing.
pub fn print_pair(out: &mut [u8], at: usize, first: u32, second: u32) -> usize
    ensures { PrintsPair out.old out.new at result first second }
{
    let room = out.len();
    if room < MOST_PAIR {
        return at;
    }
    if room - MOST_PAIR < at {
        return at;
    }
    let a = put_wide(out, at, first);
    let b = put_field(out, a, second);
    put(out, b, b'\n')
}
