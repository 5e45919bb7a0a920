// TYPE, "other kind": what a right of the kind asked for gives, and the refusal of every other. The kind is classified here, so that
// a lookup takes what it gives by `?`: a function for each rule of that name, which differ in the arm that they let pass.
ghost use Rattle.std.specs.Prelude.{◌≡◌};
ghost use Rattle.rules.specs.Calls.{as_directory_object};
ghost use Rattle.rules.specs.Numbers.{as_directory, as_endpoint, as_function, as_memory, as_process, as_table};

use words::capabilities::{FunctionRange, Kind, Span, Stretch};
use words::numbers::Slot;
use words::refusals::Refusal;

#[tactic(auto, unfolding(rules::specs::Numbers::as_table))]
pub fn as_table(k: Kind) -> Result<Slot, Refusal>
    ensures { result ≡ as_table k }
{
    match k {
        Kind::Table(object) => Ok(object),
        Kind::Directory { .. }
        | Kind::Memory { .. }
        | Kind::Process(_)
        | Kind::Endpoint(_)
        | Kind::Function { .. } => Err(Refusal::CapType),
    }
}

#[tactic(auto, unfolding(rules::specs::Numbers::as_directory))]
pub(crate) fn as_directory(k: Kind) -> Result<Span, Refusal>
    ensures { result ≡ as_directory k }
{
    match k {
        Kind::Directory { object, low, high } => Ok(Span { object, low, high }),
        Kind::Table(_)
        | Kind::Memory { .. }
        | Kind::Process(_)
        | Kind::Endpoint(_)
        | Kind::Function { .. } => Err(Refusal::CapType),
    }
}

// The object alone, for a deletion.
pub fn as_directory_object(k: Kind) -> Result<Slot, Refusal>
    ensures { result ≡ as_directory_object k }
{
    Ok(as_directory(k)?.object)
}

#[tactic(auto, unfolding(rules::specs::Numbers::as_memory))]
pub(crate) fn as_memory(k: Kind) -> Result<Stretch, Refusal>
    ensures { result ≡ as_memory k }
{
    match k {
        Kind::Memory { low, high } => Ok(Stretch { low, high }),
        Kind::Table(_)
        | Kind::Directory { .. }
        | Kind::Process(_)
        | Kind::Endpoint(_)
        | Kind::Function { .. } => Err(Refusal::CapType),
    }
}

#[tactic(auto, unfolding(rules::specs::Numbers::as_process))]
pub fn as_process(k: Kind) -> Result<Slot, Refusal>
    ensures { result ≡ as_process k }
{
    match k {
        Kind::Process(object) => Ok(object),
        Kind::Table(_)
        | Kind::Directory { .. }
        | Kind::Memory { .. }
        | Kind::Endpoint(_)
        | Kind::Function { .. } => Err(Refusal::CapType),
    }
}

#[tactic(auto, unfolding(rules::specs::Numbers::as_endpoint))]
pub fn as_endpoint(k: Kind) -> Result<Slot, Refusal>
    ensures { result ≡ as_endpoint k }
{
    match k {
        Kind::Endpoint(object) => Ok(object),
        Kind::Table(_)
        | Kind::Directory { .. }
        | Kind::Memory { .. }
        | Kind::Process(_)
        | Kind::Function { .. } => Err(Refusal::CapType),
    }
}

#[tactic(auto, unfolding(rules::specs::Numbers::as_function))]
pub fn as_function(k: Kind) -> Result<FunctionRange, Refusal>
    ensures { result ≡ as_function k }
{
    match k {
        Kind::Function { low, high } => Ok(FunctionRange { low, high }),
        Kind::Table(_)
        | Kind::Directory { .. }
        | Kind::Memory { .. }
        | Kind::Process(_)
        | Kind::Endpoint(_) => Err(Refusal::CapType),
    }
}
