// What a call comes to: −18, −17, then the arguments of its judge. This half of a call only reads, so a refusal changes nothing.
// Five judges ask for a well-formed state, by a clause and not by a type: fifteen take any, and a type would be built in `kernel_call` alone.
#![tactic(auto)]

ghost use Rattle.std.specs.Prelude.{◌≡◌, true};
ghost use Rattle.words.specs.Fields.{call_number};
ghost use Rattle.state.specs.Read.{read};
ghost use Rattle.rules.specs.WellFormed.{wf};
ghost use Rattle.rules.specs.Calls.{call_of, plan};

use judging_directories::create_directory::judge_create_directory;
use judging_directories::delete_directory::judge_delete_directory;
use judging_endpoints::functions::judge_function;
use judging_endpoints::receive::judge_receive;
use judging_endpoints::send::judge_send;
use judging_numbers::callers::caller_table;
use judging_pages::construct::judge_construct;
use judging_pages::destruct::judge_destruct;
use judging_pages::map_page::judge_map_page;
use judging_pages::remove_page::judge_remove_page;
use judging_processes::changes::{judge_change_directory, judge_change_table};
use judging_processes::endpoints::{judge_create_endpoint, judge_delete_endpoint};
use judging_processes::processes::{judge_create_process, judge_delete_process};
use judging_tables::create::judge_create_table;
use judging_tables::delegate::judge_delegate;
use judging_tables::delete::judge_delete_table;
use judging_tables::freeze::judge_freeze;
use judging_tables::remove::judge_remove;
use words::actions::Action;
use words::calls::{
    CHANGE_DIRECTORY, CHANGE_TABLE, CONSTRUCT, CREATE_DIRECTORY, CREATE_ENDPOINT, CREATE_PROCESS,
    CREATE_TABLE, DELEGATE, DELETE_DIRECTORY, DELETE_ENDPOINT, DELETE_PROCESS, DELETE_TABLE,
    DESTRUCT, FREEZE, FUNCTION, MAP_PAGE, RECEIVE, REMOVE, REMOVE_PAGE, SEND,
};
use words::fields::{Words, call_number};
use words::numbers::Slot;
use words::refusals::Refusal;

// "N[5:0] is the call number"; −17 where it is not 1..20. A match and no table of functions: each judge is another rule.
fn judge_call(s: &[u8], t: Slot, w: Words) -> Result<Action, Refusal>
    requires { wf (read s.now) ≡ true }
    ensures { result ≡ call_of (call_number w) (read s.now) t w }
{
    let n = call_number(w);
    match n {
        CREATE_TABLE => judge_create_table(s, t, w),
        DELETE_TABLE => judge_delete_table(s, t, w),
        DELEGATE => judge_delegate(s, t, w),
        FREEZE => judge_freeze(s, t, w),
        REMOVE => judge_remove(s, t, w),
        CREATE_DIRECTORY => judge_create_directory(s, t, w),
        DELETE_DIRECTORY => judge_delete_directory(s, t, w),
        MAP_PAGE => judge_map_page(s, t, w),
        REMOVE_PAGE => judge_remove_page(s, t, w),
        CONSTRUCT => judge_construct(s, t, w),
        DESTRUCT => judge_destruct(s, t, w),
        CREATE_PROCESS => judge_create_process(s, t, w),
        DELETE_PROCESS => judge_delete_process(s, t, w),
        CHANGE_TABLE => judge_change_table(s, t, w),
        CHANGE_DIRECTORY => judge_change_directory(s, t, w),
        CREATE_ENDPOINT => judge_create_endpoint(s, t, w),
        DELETE_ENDPOINT => judge_delete_endpoint(s, t, w),
        SEND => judge_send(s, t, w),
        RECEIVE => judge_receive(s, t, w),
        FUNCTION => judge_function(s, t, w),
        _ => Err(Refusal::BadCall),
    }
}

// "caller is not a live process's slot"
pub fn judge(s: &[u8], caller: u32, w: Words) -> Result<Action, Refusal>
    requires { wf (read s.now) ≡ true }
    ensures { result ≡ plan (read s.now) caller w }
{
    let t = caller_table(s, caller)?;
    judge_call(s, t, w)
}
