// What a text gives: line by line, the first faulty one decides.
ghost use Rattle.std.specs.Prelude.{true, List, ℕ, ◌≡◌, ◌+◌, ◌*◌, length};
ghost use Rattle.words.specs.Sizes.{state_length};
ghost use Rattle.intel_hex.specs.Lines.{lines_of};
ghost use Rattle.intel_hex.specs.Marks.{half};
ghost use Rattle.intel_hex.specs.Pairs.{pairs};
ghost use Rattle.intel_hex.specs.Reading.{data_step, end_step, given, line_step, lines_taken, nothing_more, read_lines, record_step, unset};
ghost use Rattle.intel_hex.specs.Records.{address_in, data_in, whole};
ghost use Rattle.hex_reading.specs.Numbers.{numbers};
ghost use Rattle.hex_reading.specs.Told.{told, told_text};

use crate::cells::{full, place, vacant};
use crate::records::Record;
use crate::text_lines::split_line;
use intel_hex::faults::Fault;
use intel_hex::marks::{DATA_TYPE, STATE_UPPER, UPPER_TYPE};
use words::sizes::STATE_LENGTH;

// Whether reading goes on behind a line that was taken, or it was the end record.
#[derive(Clone, Copy)]
pub(crate) enum Taken {
    On,
    Over,
}

// How far a text has been read: the bytes given, the upper half of the address, and how many lines were taken.
#[derive(Drop)]
pub(crate) struct Course {
    pub(crate) cells: [Option<u8>; STATE_LENGTH],
    upper: u16,
    pub(crate) taken: usize,
}

// Behind the end record nothing may stand.
fn nothing_more(text: &[u8]) -> Result<(), Fault>
    ensures { (c : List ℕ) → told_text result c ≡ nothing_more c (lines_of text.now) }
{
    if text.is_empty() {
        Ok(())
    } else {
        Err(Fault::End)
    }
}

impl Course {
    pub(crate) fn new() -> Course
        ensures cells { numbers result.cells ≡ unset state_length }
        ensures upper { result.upper ≡ 0 }
        ensures taken { result.taken ≡ 0 }
    {
        Course {
            cells: [None; STATE_LENGTH],
            upper: 0,
            taken: 0,
        }
    }

    fn take_data(&mut self, spelled: &Record) -> Result<Taken, Fault>
        requires { whole (pairs spelled.now.digits.now) ≡ true }
        ensures step { told result (numbers self.new.cells) self.new.upper ≡ data_step (record { cells = numbers self.old.cells; upper = self.old.upper }) (half * self.old.upper + address_in (pairs spelled.now.digits.now)) (data_in (pairs spelled.now.digits.now)) }
        ensures taken { self.new.taken ≡ self.old.taken }
    {
        let at = usize::from(spelled.address());
        let end = at + usize::from(spelled.length());
        if self.upper != STATE_UPPER || STATE_LENGTH < end || !vacant(&self.cells[at..end]) {
            return Err(Fault::Address);
        }
        place(&mut self.cells[at..end], spelled);
        Ok(Taken::On)
    }

    fn take_end(&self) -> Result<Taken, Fault>
        ensures { told result (numbers self.now.cells) self.now.upper ≡ end_step (numbers self.now.cells) }
    {
        if full(&self.cells) {
            Ok(Taken::Over)
        } else {
            Err(Fault::Address)
        }
    }

    fn take_record(&mut self, spelled: &Record) -> Result<Taken, Fault>
        requires { whole (pairs spelled.now.digits.now) ≡ true }
        ensures step { told result (numbers self.new.cells) self.new.upper ≡ record_step (record { cells = numbers self.old.cells; upper = self.old.upper }) (pairs spelled.now.digits.now) }
        ensures taken { self.new.taken ≡ self.old.taken }
    {
        match spelled.record_type() {
            DATA_TYPE => self.take_data(spelled),
            UPPER_TYPE => {
                self.upper = spelled.upper();
                Ok(Taken::On)
            }
            _ => self.take_end(),
        }
    }

    fn take_line(&mut self, line: &[u8]) -> Result<Taken, Fault>
        ensures step { told result (numbers self.new.cells) self.new.upper ≡ line_step (record { cells = numbers self.old.cells; upper = self.old.upper }) line.now }
        ensures taken { self.new.taken ≡ self.old.taken }
    {
        let Some(spelled) = Record::of_line(line) else {
            return Err(Fault::Line);
        };
        if !spelled.is_balanced() {
            return Err(Fault::Sum);
        }
        self.take_record(&spelled)
    }

    pub(crate) fn read(&mut self, text: &[u8]) -> Result<(), Fault>
        requires { self.old.taken ≡ 0 }
        ensures text { told_text result (given (numbers self.new.cells)) ≡ read_lines (record { cells = numbers self.old.cells; upper = self.old.upper }) (lines_of text.now) }
        ensures lines { self.new.taken ≡ lines_taken (record { cells = numbers self.old.cells; upper = self.old.upper }) (lines_of text.now) }
    {
        let mut rest = text;
        while !rest.is_empty() {
            let (line, behind) = split_line(rest);
            let step = self.take_line(line)?;
            self.taken += 1;
            match step {
                Taken::On => rest = behind,
                Taken::Over => return nothing_more(behind),
            }
        }
        Err(Fault::End)
    }
}
