// Why a text gives no state, and the number of that for C: numbers are made nowhere else in this crate.
ghost use Rattle.std.specs.Prelude.{◌≡◌};
ghost use Rattle.intel_hex.specs.Outcomes.{fault_number};
ghost use Rattle.hex_reading.specs.Names.{Faulty};
ghost use Rattle.hex_reading.specs.Told.{number_of};

use intel_hex::faults::Fault;
use words::refusals::{Refusal, refusal_number};

// A faulty line, or bytes that are no state.
#[derive(Clone, Copy)]
pub(crate) enum Unread {
    Faulty(Fault),
    BadState,
}

impl From<Fault> for Unread {
    ghost from_gives = { λ f u. u ≡ Faulty f };

    fn from(fault: Fault) -> Unread {
        Unread::Faulty(fault)
    }
}

fn fault_number(f: Fault) -> i32
    ensures { result ≡ fault_number f }
{
    match f {
        Fault::Line => -30,
        Fault::Sum => -31,
        Fault::Address => -32,
        Fault::End => -33,
    }
}

// A function and no `From`: its contract is an equation with the definition of the same name.
pub(crate) fn number_of(u: Unread) -> i32
    ensures { result ≡ number_of u }
{
    match u {
        Unread::Faulty(f) => fault_number(f),
        Unread::BadState => refusal_number(Refusal::BadState),
    }
}
