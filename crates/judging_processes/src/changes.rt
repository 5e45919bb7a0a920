// 14 change table: P1 process CPT; P2 table PROC_CPT.
// 15 change directory: P1 process PGT; P2 directory PROC_PGT.
ghost use Rattle.std.specs.Prelude.{◌≡◌};
ghost use Rattle.state.specs.Read.{read};
ghost use Rattle.rules.specs.Calls.{change_directory, change_table};

use judging_numbers::arguments::{process_arg, table_arg, top_arg};
use words::actions::Action;
use words::fields::{Words, number_in_word};
use words::flag_bits::{D_PROC_PGT, P_CPT, P_PGT, T_PROC_CPT};
use words::numbers::Slot;
use words::refusals::Refusal;

pub fn judge_change_table(s: &[u8], t: Slot, w: Words) -> Result<Action, Refusal>
    ensures { result ≡ change_table (read s.now) t w }
{
    let p = process_arg(s, t, number_in_word(w.p1), P_CPT)?;
    let o = table_arg(s, t, number_in_word(w.p2), T_PROC_CPT)?;
    Ok(Action::ChangeTable {
        process: p,
        table: o,
    })
}

pub fn judge_change_directory(s: &[u8], t: Slot, w: Words) -> Result<Action, Refusal>
    ensures { result ≡ change_directory (read s.now) t w }
{
    let p = process_arg(s, t, number_in_word(w.p1), P_PGT)?;
    let d = top_arg(s, t, number_in_word(w.p2), D_PROC_PGT)?;
    Ok(Action::ChangeDirectory {
        process: p,
        directory: d,
    })
}
