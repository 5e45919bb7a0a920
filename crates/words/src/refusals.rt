// Document 01's refusals, by name and by number.
ghost use Rattle.std.specs.Prelude.{◌≡◌};
ghost use Rattle.words.specs.Refusals.{number};

#[derive(Clone, Copy)]
pub enum Refusal {
    CapRange,
    CapFrozen,
    CapType,
    CapNull,
    CapFlag,
    CapExist,
    CapKotbl,
    CapQuie,
    CapRefcnt,
    PgtHw,
    PgtAddr,
    PgtMap,
    PgtPerm,
    SivFull,
    SivAct,
    SivConflict,
    BadCall,
    BadCaller,
    BadState,
}

// The number that a caller is given: the one place where a refusal becomes what C reads. docs/PROOFS.md names the function.
pub fn refusal_number(a: Refusal) -> i32
    ensures { result ≡ number a }
{
    match a {
        Refusal::CapRange => -1,
        Refusal::CapFrozen => -2,
        Refusal::CapType => -3,
        Refusal::CapNull => -4,
        Refusal::CapFlag => -5,
        Refusal::CapExist => -6,
        Refusal::CapKotbl => -7,
        Refusal::CapQuie => -8,
        Refusal::CapRefcnt => -9,
        Refusal::PgtHw => -10,
        Refusal::PgtAddr => -11,
        Refusal::PgtMap => -12,
        Refusal::PgtPerm => -13,
        Refusal::SivFull => -14,
        Refusal::SivAct => -15,
        Refusal::SivConflict => -16,
        Refusal::BadCall => -17,
        Refusal::BadCaller => -18,
        Refusal::BadState => -19,
    }
}
