// How many steps of each sort the record has.
use crate::records::Step;
use std::fmt;

#[derive(Clone, Copy, Default)]
pub struct Tally {
    boots: u64,
    ticks: u64,
    words: u64,
    calls: u64,
    states: u64,
}

impl Tally {
    pub(crate) fn count(&mut self, step: Step) {
        match step {
            Step::Boot(_) => self.boots = self.boots.wrapping_add(1),
            Step::Tick(_) => self.ticks = self.ticks.wrapping_add(1),
            Step::Set { .. } => self.words = self.words.wrapping_add(1),
            Step::Made { .. } => self.calls = self.calls.wrapping_add(1),
            Step::Hash(_) => self.states = self.states.wrapping_add(1),
        }
    }
}

impl fmt::Display for Tally {
    fn fmt<W: fmt::Write>(&self, f: &mut fmt::Formatter<W>) -> fmt::Result {
        write!(
            f,
            "{} calls, {} ticks and {} boots answered as recorded; {} states as recorded; {} words set directly",
            self.calls, self.ticks, self.boots, self.states, self.words
        )
    }
}
