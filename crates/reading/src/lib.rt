// A line of the input, without its newline, to a call.
#![tactic(auto)]

ghost use Rattle.std.specs.Prelude.{◌≡◌, ◌≤◌, IfSome};
ghost use Rattle.literal.specs.Match.{and_then};
ghost use Rattle.reading.specs.Call.{numeral, number, most_id_digits, largest_number, head_of, letter, worked_by, report_of, outcome_of, call_of};
ghost use Rattle.reading.specs.Fields.{fields_left, Reads};
ghost use Rattle.reading.specs.Spoken.{meaning};

use crate::fields::Fields;
use literal::{Literal, NEGATIVE};
use model::{MOST_NUMBER, Number};

mod fields; // the fields of a line

// The longest readable line has this many bytes.
pub const MOST_LINE: usize = 32;

// A kind, a predicate or a term has at most this many digits.
const MOST_DIGITS: usize = 5;

// And an id this many.
const MOST_ID_DIGITS: usize = 10;

const LARGEST_NUMBER: u32 = 65535;

const LARGEST_PREDICATE: u32 = 32767;

// What a line says, where it can be read: one of the three calls.
// A report's kind is a number, as the call takes it: the call refuses what names no kind.
#[derive(Clone, Copy)]
pub enum Spoken {
    Report { kind: u16, literal: Literal },
    Cycle,
    Outcome { id: Number, worked: bool },
}

// ---- What one field says

// 1 to so many digits that say at most so much.
#[tactic(auto, using(crate::proofs::NumberLaws::number_missing, crate::proofs::NumberLaws::number_long))]
fn read_numeral(field: &[u8], digits: usize, most: u32) -> Option<u32>
    requires { digits ≤ most_id_digits }
    ensures said { result ≡ numeral digits most field.now }
    ensures small { IfSome result (λ n. n ≤ most) }
{
    if field.is_empty() || digits < field.len() {
        return None;
    }
    let mut value: u64 = 0;
    for b in field {
        if !b.is_ascii_digit() {
            return None;
        }
        value = value * 10 + u64::from(*b - b'0');
    }
    if u64::from(most) < value {
        return None;
    }
    Some(value as u32)
}

// A kind, a term, or a word of its own.
pub fn read_number(word: &[u8]) -> Option<u16>
    ensures { result ≡ number largest_number word.now }
{
    Some(read_numeral(word, MOST_DIGITS, LARGEST_NUMBER)? as u16)
}

#[tactic(auto, unfolding(crate::specs::Call::letter))]
fn read_worked(field: &[u8]) -> Option<bool>
    ensures { result ≡ and_then (letter field.now) worked_by }
{
    match field {
        [b'1'] => Some(true),
        [b'0'] => Some(false),
        _ => None,
    }
}

// ---- Field by field

// The next one, as a kind or a term.
fn next_number(fields: &mut Fields<'_>) -> Option<u16>
    ensures { Reads (number largest_number) fields.old result fields.new }
{
    Some(fields.numeral(MOST_DIGITS, LARGEST_NUMBER)? as u16)
}

// The next one, as a sign and a predicate.
fn read_head(fields: &mut Fields<'_>) -> Option<u16>
    ensures { Reads head_of fields.old result fields.new }
{
    let sign = fields.sign()?;
    let predicate = fields.numeral(MOST_DIGITS, LARGEST_PREDICATE)?;
    match sign {
        b'+' => Some(predicate as u16),
        b'-' => Some(predicate as u16 + NEGATIVE),
        _ => None,
    }
}

// What stands after P.
fn read_report(mut fields: Fields<'_>) -> Option<Spoken>
    ensures { meaning result ≡ report_of (fields_left fields.entry) }
{
    let kind = next_number(&mut fields)?;
    let head = read_head(&mut fields)?;
    let first = next_number(&mut fields)?;
    let second = next_number(&mut fields)?;
    let third = next_number(&mut fields)?;
    if fields.next().is_some() {
        return None;
    }
    let literal = Literal {
        head,
        first,
        second,
        third,
    };
    Some(Spoken::Report { kind, literal })
}

// What stands after O.
fn read_outcome(mut fields: Fields<'_>) -> Option<Spoken>
    ensures { meaning result ≡ outcome_of (fields_left fields.entry) }
{
    let id = fields.numeral(MOST_ID_DIGITS, MOST_NUMBER)?;
    let worked = read_worked(fields.next()?)?;
    if fields.next().is_some() {
        return None;
    }
    Some(Spoken::Outcome { id, worked })
}

// What a line says.
#[tactic(auto, using(crate::proofs::LongLines::long_unreadable, crate::proofs::LetterLaws::call_report, crate::proofs::LetterLaws::call_outcome), unfolding(crate::specs::Call::call_of, crate::specs::Call::letter))]
pub fn read_call(line: &[u8]) -> Option<Spoken>
    ensures { meaning result ≡ call_of line.now }
{
    if MOST_LINE < line.len() {
        return None;
    }
    match line {
        [b'C'] => Some(Spoken::Cycle),
        [b'P', b' ', rest @ ..] => read_report(Fields::of(rest)),
        [b'O', b' ', rest @ ..] => read_outcome(Fields::of(rest)),
        _ => None,
    }
}
