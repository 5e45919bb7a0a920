// 19 receive: P1 endpoint, flag of its option; P2 option 0..3 = BS, BM, NS, NM. "−15 before the flag, after the kind".
ghost use Rattle.std.specs.Prelude.{◌≡◌, eqb};
ghost use Rattle.words.specs.Tests.{◌or◌};
ghost use Rattle.state.specs.Read.{read};
ghost use Rattle.rules.specs.Calls;
ghost use Rattle.judging_endpoints.specs.Taken;

use judging_numbers::kinds::as_endpoint;
use judging_numbers::lookups::{has_flag, look_up};
use reading::endpoints::count_at;
use words::actions::Action;
use words::calls::{OPTION_NM, OPTION_NS};
use words::fields::{Words, number_in_word};
use words::flag_bits::E_RCV_BS;
use words::numbers::{Count, Slot};
use words::refusals::Refusal;
use words::sizes::MOST_TAKEN;

// The two options that do not block.
fn is_option(o: u32) -> bool
    ensures { result ≡ (eqb o Calls.option_ns or eqb o Calls.option_nm) }
{
    if o == OPTION_NS {
        return true;
    }
    o == OPTION_NM
}

// "Receive NS takes min(1, count), NM takes min(count, 2^31−1)"
fn most(o: u32) -> u32
    ensures { result ≡ Calls.most o }
{
    if o == OPTION_NS {
        return 1;
    }
    MOST_TAKEN
}

// What is taken of the signals at an endpoint; "the rest stays".
fn taken(s: &[u8], e: Slot, o: u32) -> Result<Action, Refusal>
    ensures { result ≡ Taken.taken (read s.now) e o }
{
    let waiting = count_at(s, e).0;
    let m = waiting.min(most(o));
    Ok(Action::SetCount {
        endpoint: e,
        count: Count(waiting - m),
        taken: Count(m),
    })
}

pub fn judge_receive(s: &[u8], t: Slot, w: Words) -> Result<Action, Refusal>
    ensures { result ≡ Calls.receive (read s.now) t w }
{
    let c = look_up(s, t, number_in_word(w.p1))?;
    let e = as_endpoint(c.kind)?;
    let o = w.p2;
    if !is_option(o) {
        return Err(Refusal::SivAct);
    }
    if !has_flag(c.flags, E_RCV_BS + o) {
        return Err(Refusal::CapFlag);
    }
    taken(s, e, o)
}
