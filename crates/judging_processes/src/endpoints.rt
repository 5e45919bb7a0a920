// 16 create endpoint: C table CRT; P1 memory SIG; P2 place; P3 address.
// 17 delete endpoint: C table DEL; P1 place. "SIV_CONFLICT": "deleting the boot endpoint".
ghost use Rattle.std.specs.Prelude.{true, ◌≡◌};
ghost use Rattle.state.specs.Read.{read};
ghost use Rattle.rules.specs.Calls.{create_endpoint, delete_endpoint};
ghost use Rattle.rules.specs.WellFormed.{wf};

use judging_deletions::deletions::endpoint_to_delete;
use judging_numbers::arguments::{memory_arg, table_arg};
use judging_places::addresses::address_arg;
use judging_places::places::to_fill;
use reading::endpoints::boot_mark_at;
use words::actions::{Action, Spot};
use words::fields::{Words, address_in_word, number_in_c, number_in_word};
use words::flag_bits::{M_SIG, T_CRT, T_DEL};
use words::numbers::Slot;
use words::refusals::Refusal;

// "process, endpoint: one slot each"
const ENDPOINT_SLOTS: u32 = 1;

// On a well-formed state the memory right lies in kernel memory, so that an address in it has a slot.
pub fn judge_create_endpoint(s: &[u8], t: Slot, w: Words) -> Result<Action, Refusal>
    requires { wf (read s.now) ≡ true }
    ensures { result ≡ create_endpoint (read s.now) t w }
{
    let c = table_arg(s, t, number_in_c(w), T_CRT)?;
    let m = memory_arg(s, t, number_in_word(w.p1), M_SIG)?;
    let p = to_fill(s, c, w.p2)?;
    let first = address_arg(s, m, address_in_word(w.p3), ENDPOINT_SLOTS)?;
    Ok(Action::CreateEndpoint { at: p, first })
}

pub fn judge_delete_endpoint(s: &[u8], t: Slot, w: Words) -> Result<Action, Refusal>
    ensures { result ≡ delete_endpoint (read s.now) t w }
{
    let c = table_arg(s, t, number_in_c(w), T_DEL)?;
    let o = endpoint_to_delete(s, c, w.p1)?;
    if boot_mark_at(s, o) {
        return Err(Refusal::SivConflict);
    }
    Ok(Action::Delete {
        at: Spot {
            table: c,
            entry: w.p1,
        },
        object: o,
    })
}
