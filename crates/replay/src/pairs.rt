// Which answers each call gave: a row for each of the twenty numbers and one, 0, for all others; a column for 0, one for a positive
// count, and one for each refusal.
ghost use Rattle.std.specs.Prelude.{◌<◌, ◌≤◌};

use std::io::Result;
use words::calls::FUNCTION;
use words::fields::{CALL_NUMBERS, HALF};

const ROWS: usize = FUNCTION as usize + 1;

const COLUMNS: usize = 21;

#[derive(Clone, Copy)]
pub struct Pairs([[bool; COLUMNS]; ROWS]);

// The row of the call whose first word is w0, by N[5:0]: `call_number` of `words` asks for all four words.
fn row(w0: u32) -> usize
    ensures { result < ROWS }
{
    let n = w0 / HALF % CALL_NUMBERS;
    if n <= FUNCTION { n as usize } else { 0 }
}

// Refusal −k has column k + 1.
pub(crate) fn column(answer: i32) -> usize
    ensures { result < COLUMNS }
{
    match answer {
        0 => 0,
        -19..=-1 => answer.unsigned_abs() as usize + 1,
        _ => 1,
    }
}

impl Pairs {
    pub(crate) fn new() -> Self {
        Pairs([[false; COLUMNS]; ROWS])
    }

    pub(crate) fn note(&mut self, w0: u32, answer: i32) {
        self.0[row(w0)][column(answer)] = true;
    }

    // The answers that each call gave, a call a line.
    pub(crate) fn say(&self, rt: &impl Print) -> Result<()> {
        for (row, met) in self.0.iter().enumerate() {
            say_name(rt, row)?;
            say_row(rt, met)?;
        }
        Ok(())
    }
}

fn say_name(rt: &impl Print, row: usize) -> Result<()> {
    match row {
        0 => print!(rt; "other numbers:"),
        _ => print!(rt; "call {row}:"),
    }
}

fn say_row(rt: &impl Print, met: &[bool; COLUMNS]) -> Result<()> {
    for (column, is_met) in met.iter().enumerate() {
        if *is_met {
            say_column(rt, column)?;
        }
    }
    println!(rt)
}

fn say_column(rt: &impl Print, column: usize) -> Result<()> {
    match column {
        0 => print!(rt; " 0"),
        1 => print!(rt; " +"),
        _ => print!(rt; " -{}", column - 1),
    }
}
