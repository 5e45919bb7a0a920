// The actions that write into an object that stands: a position of a directory, the table or the directory of a process, the count of an endpoint.
ghost use Rattle.std.specs.Prelude.{true, ◌≡◌};
ghost use Rattle.words.specs.declared.actions.Action.TheVariants.{SetPosition, ChangeTable, ChangeDirectory, SetCount};
ghost use Rattle.state.specs.Bytes.{bytes};
ghost use Rattle.state.specs.Read.{read};
ghost use Rattle.rules.specs.Buffer.{sound};
ghost use Rattle.rules.specs.Commit.{commit};
ghost use Rattle.committing.specs.Ready.{Ready};

use words::capabilities::Position;
use words::numbers::{Count, Slot};
use writing::directories::store_position;
use writing::endpoints::store_count;
use writing::processes::{store_directory_named, store_table_named};

pub(crate) fn commit_set_position(s: &mut [u8], directory: Slot, position: u32, to: Position)
    requires well_formed { sound s.old ≡ true }
    requires ready { Ready (read s.old) (SetPosition directory position to) }
    ensures { s.new ≡ bytes (commit (read s.old) (SetPosition directory position to)) }
{
    store_position(s, directory, position, to);
}

pub(crate) fn commit_change_table(s: &mut [u8], process: Slot, table: Slot)
    requires well_formed { sound s.old ≡ true }
    requires ready { Ready (read s.old) (ChangeTable process table) }
    ensures { s.new ≡ bytes (commit (read s.old) (ChangeTable process table)) }
{
    store_table_named(s, process, table);
}

pub(crate) fn commit_change_directory(s: &mut [u8], process: Slot, directory: Slot)
    requires well_formed { sound s.old ≡ true }
    requires ready { Ready (read s.old) (ChangeDirectory process directory) }
    ensures { s.new ≡ bytes (commit (read s.old) (ChangeDirectory process directory)) }
{
    store_directory_named(s, process, directory);
}

// What a receipt takes is its answer, and leaves no trace in the state.
pub(crate) fn commit_set_count(s: &mut [u8], endpoint: Slot, count: Count, taken: Count)
    requires well_formed { sound s.old ≡ true }
    requires ready { Ready (read s.old) (SetCount endpoint count taken) }
    ensures { s.new ≡ bytes (commit (read s.old) (SetCount endpoint count taken)) }
{
    store_count(s, endpoint, count);
}
