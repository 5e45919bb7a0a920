// A capability argument: the right that its number finds, of the kind asked for, with the flag asked for. A refusal of a step is
// the refusal of the argument.
ghost use Rattle.std.specs.Prelude.{◌≡◌, ◌<◌};
ghost use Rattle.words.specs.declared.capabilities.Kind.{Kind};
ghost use Rattle.words.specs.Try.{Try};
ghost use Rattle.state.specs.Read.{read};
ghost use Rattle.rules.specs.Numbers.{argument, directory_arg, endpoint_arg, memory_arg, process_arg, table_arg, top_arg};

use crate::kinds::{as_directory, as_endpoint, as_memory, as_process, as_table};
use crate::lookups::{has_flag, look_up};
use reading::directories::shape_at;
use words::capabilities::{Kind, Span, Stretch};
use words::numbers::{CapabilityNumber, Slot};
use words::refusals::Refusal;

// The bound on a flag's bit is a clause here and at `has_flag`: a receive adds its option to a bit. The kind, then FLAG; `kind` makes of a right's kind what the call asks for.
fn argument<A: Drop, F: FnOnce(Kind) -> Result<A, Refusal>>(
    s: &[u8],
    t: Slot,
    v: CapabilityNumber,
    f: u32,
    kind: F,
) -> Result<A, Refusal>
    requires flag { f < 32 }
    requires takes_any { F.IsAlwaysCallable kind }
    ensures { (rule : Kind → Try A) → ((k : Kind) (r : Try A) → F.post kind k r → r ≡ rule k) → result ≡ argument rule (read s.now) t v.0 f }
{
    let c = look_up(s, t, v)?;
    let a = kind(c.kind)?;
    if !has_flag(c.flags, f) {
        return Err(Refusal::CapFlag);
    }
    Ok(a)
}

pub fn table_arg(s: &[u8], t: Slot, v: CapabilityNumber, f: u32) -> Result<Slot, Refusal>
    requires { f < 32 }
    ensures { result ≡ table_arg (read s.now) t v.0 f }
{
    argument(s, t, v, f, as_table)
}

pub fn directory_arg(s: &[u8], t: Slot, v: CapabilityNumber, f: u32) -> Result<Span, Refusal>
    requires { f < 32 }
    ensures { result ≡ directory_arg (read s.now) t v.0 f }
{
    argument(s, t, v, f, as_directory)
}

pub fn memory_arg(s: &[u8], t: Slot, v: CapabilityNumber, f: u32) -> Result<Stretch, Refusal>
    requires { f < 32 }
    ensures { result ≡ memory_arg (read s.now) t v.0 f }
{
    argument(s, t, v, f, as_memory)
}

pub fn process_arg(s: &[u8], t: Slot, v: CapabilityNumber, f: u32) -> Result<Slot, Refusal>
    requires { f < 32 }
    ensures { result ≡ process_arg (read s.now) t v.0 f }
{
    argument(s, t, v, f, as_process)
}

pub fn endpoint_arg(s: &[u8], t: Slot, v: CapabilityNumber, f: u32) -> Result<Slot, Refusal>
    requires { f < 32 }
    ensures { result ≡ endpoint_arg (read s.now) t v.0 f }
{
    argument(s, t, v, f, as_endpoint)
}

// "A process's directory must be top, else PGT_HW, checked after that argument".
pub fn top_arg(s: &[u8], t: Slot, v: CapabilityNumber, f: u32) -> Result<Slot, Refusal>
    requires { f < 32 }
    ensures { result ≡ top_arg (read s.now) t v.0 f }
{
    let object = directory_arg(s, t, v, f)?.object;
    if !shape_at(s, object).top {
        return Err(Refusal::PgtHw);
    }
    Ok(object)
}
