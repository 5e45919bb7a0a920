// 12 create process: C table CRT; P1.D1 memory PROC; P2.D1 table PROC_CRT; P2.D0 directory PROC_CRT; P1.D0 place; P3 address.
// 13 delete process: C table DEL; P1 place.
ghost use Rattle.std.specs.Prelude.{true, ◌≡◌};
ghost use Rattle.state.specs.Read.{read};
ghost use Rattle.rules.specs.Calls.{create_process, delete_process};
ghost use Rattle.rules.specs.WellFormed.{wf};

use judging_deletions::deletions::process_to_delete;
use judging_numbers::arguments::{memory_arg, table_arg, top_arg};
use judging_places::addresses::address_arg;
use judging_places::places::to_fill;
use words::actions::{Action, Spot};
use words::fields::{Words, address_in_word, d0, number_in_c, number_in_d0, number_in_d1};
use words::flag_bits::{D_PROC_CRT, M_PROC, T_CRT, T_DEL, T_PROC_CRT};
use words::numbers::Slot;
use words::refusals::Refusal;

// "process, endpoint: one slot each"
const PROCESS_SLOTS: u32 = 1;

// On a well-formed state the memory right lies in kernel memory, so that an address in it has a slot.
pub fn judge_create_process(s: &[u8], t: Slot, w: Words) -> Result<Action, Refusal>
    requires { wf (read s.now) ≡ true }
    ensures { result ≡ create_process (read s.now) t w }
{
    // The new process's own table and directory.
    let its_table = number_in_d1(w.p2);
    let its_directory = number_in_d0(w.p2);
    let c = table_arg(s, t, number_in_c(w), T_CRT)?;
    let m = memory_arg(s, t, number_in_d1(w.p1), M_PROC)?;
    let o = table_arg(s, t, its_table, T_PROC_CRT)?;
    let d = top_arg(s, t, its_directory, D_PROC_CRT)?;
    let p = to_fill(s, c, d0(w.p1))?;
    let first = address_arg(s, m, address_in_word(w.p3), PROCESS_SLOTS)?;
    Ok(Action::CreateProcess {
        at: p,
        first,
        table: o,
        directory: d,
    })
}

pub fn judge_delete_process(s: &[u8], t: Slot, w: Words) -> Result<Action, Refusal>
    ensures { result ≡ delete_process (read s.now) t w }
{
    let c = table_arg(s, t, number_in_c(w), T_DEL)?;
    let o = process_to_delete(s, c, w.p1)?;
    Ok(Action::Delete {
        at: Spot {
            table: c,
            entry: w.p1,
        },
        object: o,
    })
}
