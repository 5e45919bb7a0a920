// What a recorded line says: which bytes of the boot state's text are replaced and by which, and what reading it gives then.
ghost use Rattle.std.specs.Prelude.{◌≤◌};
ghost use Rattle.intel_hex.specs.declared.marks.TheConstants.{TEXT_LENGTH};

use crate::answers::Answer;
use crate::fields::number_of;
use crate::texts::CASE_LENGTH;
use digits::{HEX_BASE, digit};
use input::Line;
use input::fields::Fields;
use intel_hex::marks::TEXT_LENGTH;

// The answer and how many lines are taken; the bytes from index `from` to before index `to` give way to those that the pairs of digits
// spell.
#[derive(Clone, Copy)]
pub struct Case<'a> {
    pub answer: Answer,
    pub taken: usize,
    pub from: usize,
    pub to: usize,
    pub digits: &'a [u8],
    ghost ordered: { from ≤ to },
    ghost inside: { to ≤ TEXT_LENGTH },
}

// A line that is no case.
#[derive(Clone, Copy)]
pub struct Unreadable;

// Pairs of digits, or `-` for none.
fn pairs_in(word: &[u8]) -> Option<&[u8]> {
    match word {
        [] => None,
        b"-" => Some(&[]),
        _ => {
            let spells_bytes = word.len() % 2 == 0 && word.iter().all(|&b| digit(b) < HEX_BASE);
            spells_bytes.then_some(word)
        }
    }
}

// The case whose answer is spelled by a word and the rest by the fields behind it. A text has no more lines than bytes.
fn case_of<'a>(answer: &[u8], mut fields: Fields<'a>) -> Option<Case<'a>> {
    let answer = Answer::in_word(answer)?;
    let taken = number_of(&mut fields)?;
    let from = number_of(&mut fields)?;
    let to = number_of(&mut fields)?;
    let digits = pairs_in(fields.word())?;
    if CASE_LENGTH < taken || to < from || TEXT_LENGTH < to {
        return None;
    }
    Some(Case {
        answer,
        taken,
        from,
        to,
        digits,
    })
}

// Apart from the test that is made of each line: few lines need it.
#[inline(never)]
fn has_no_field(line: &[u8]) -> bool {
    let mut fields = Fields { line, at: 0 };
    matches!(fields.word(), [] | [b'#', ..])
}

// A blank line and one that begins with # say nothing. A last line that nothing ends is not judged.
pub(crate) fn says_nothing(line: Line) -> bool {
    let is_remark = matches!(line.bytes, [b'#', ..]) || has_no_field(line.bytes);
    !line.is_ended || is_remark && !line.is_longer
}

// A line that is longer than what is here of it is no case.
pub(crate) fn case_in<'a>(line: Line<'a>) -> Result<Case<'a>, Unreadable> {
    if line.is_longer {
        return Err(Unreadable);
    }
    let mut fields = Fields {
        line: line.bytes,
        at: 0,
    };
    let answer = fields.word();
    case_of(answer, fields).ok_or(Unreadable)
}
