// An answer as a number and, where asked for, in words.
use crate::reply::Reply;
use lines::counts::count_of;
use rows::{say_form, say_row};
use std::io::Result;
use words::calls::{FUNCTION, RECEIVE};

// Document 01's table "Refusals by number, and when": row k has −(k + 1).
fn say_refusal(rt: &impl Print, k: u32) -> Result<()> {
    let n = u64::from(k) + 1;
    say_row(
        rt,
        b"-# CAP_RANGE: a capability number or place is beyond the table, or the entries are not 1 to 64\n\
        -# CAP_FROZEN: a capability or place used is frozen, or one to delete or remove is not\n\
        -# CAP_TYPE: a right of another kind is there, or none where a kind is needed\n\
        -# CAP_NULL: the place is blank, or the function's number is not 0\n\
        -# CAP_FLAG: the right lacks a flag or range, the address is not a multiple of 64, or the grant is empty or inverted\n\
        -# CAP_EXIST: the place is filled, or the table to delete is not empty\n\
        -# CAP_KOTBL: a slot that is needed is occupied\n\
        -# CAP_QUIE: frozen for fewer than 8 ticks\n\
        -# CAP_REFCNT: it has children or users, or it is a root to remove or a child to delete\n\
        -# PGT_HW: no such directory can be, it must be top, it has a child or is one, or the source holds no page\n\
        -# PGT_ADDR: a position is past the end, or the size orders or the index do not fit\n\
        -# PGT_MAP: the position is filled, or holds nothing of the sort, or the child is a top directory\n\
        -# PGT_PERM: page flags that the source page lacks\n\
        -# SIV_FULL: the endpoint's count is 4294967295\n\
        -# SIV_ACT: the option is not 2 (NS) or 3 (NM)\n\
        -# SIV_CONFLICT: the boot endpoint cannot be deleted\n\
        -# no such call: the call number is not 1 to 20\n\
        -# no such caller: it is not the slot of a live process\n\
        -# no such state: the buffer is not 17472 bytes or not well formed\n",
        k,
        [n, 0, 0, 0],
    )
}

// "Success is 0, or a non-negative count": what is counted depends on the call. Each is a row of what is printed.
#[derive(Clone, Copy)]
enum Meaning {
    Done,
    Signals,
    Clock,
}

impl Meaning {
    // Of the call of that number, or of a tick.
    fn of_call(call: Option<u32>) -> Self {
        match call {
            Some(RECEIVE) => Meaning::Signals,
            Some(FUNCTION) => Meaning::Clock,
            _ => Meaning::Done,
        }
    }
}

fn say_success(rt: &impl Print, n: u64, meaning: Meaning) -> Result<()> {
    say_row(
        rt,
        b"# done\n\
        # done: the signals taken\n\
        # done: the clock mod 2^31\n",
        meaning as u32,
        [n, 0, 0, 0],
    )
}

impl Reply {
    // The answer n to the call of that number, or to a tick. A refusal −(k + 1) has k for its complement.
    pub(crate) fn say_answer(self, rt: &impl Print, n: i32, call: Option<u32>) -> Result<()> {
        let k = count_of(!n);
        let count = u64::from(count_of(n));
        match (n < 0, self.in_words) {
            (true, true) => say_refusal(rt, k),
            (true, false) => say_form(rt, b"-#\n", [u64::from(k) + 1, 0, 0, 0]),
            (false, true) => say_success(rt, count, Meaning::of_call(call)),
            (false, false) => say_form(rt, b"#\n", [count, 0, 0, 0]),
        }
    }
}
