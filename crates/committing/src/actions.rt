// A call that passed is carried out, each action by its writer.
ghost use Rattle.std.specs.Prelude.{true, ◌≡◌};
ghost use Rattle.state.specs.Bytes.{bytes};
ghost use Rattle.state.specs.Read.{read};
ghost use Rattle.rules.specs.Buffer.{sound};
ghost use Rattle.rules.specs.Commit.{commit};
ghost use Rattle.committing.specs.Ready.{Ready};

use crate::contents::{
    commit_change_directory, commit_change_table, commit_set_count, commit_set_position,
};
use crate::creations::{
    commit_create_directory, commit_create_endpoint, commit_create_process, commit_create_table,
};
use crate::deletions::commit_delete;
use crate::places::{commit_fill, commit_freeze, commit_remove};
use words::actions::Action;

pub fn carry_out(s: &mut [u8], a: Action)
    requires well_formed { sound s.old ≡ true }
    requires ready { Ready (read s.old) a }
    ensures { s.new ≡ bytes (commit (read s.old) a) }
{
    match a {
        Action::CreateTable { at, first, entries } => commit_create_table(s, at, first, entries),
        Action::CreateDirectory { at, first, shape } => commit_create_directory(
            s, at, first, shape,
        ),
        Action::CreateProcess {
            at,
            first,
            table,
            directory,
        } => commit_create_process(s, at, first, table, directory),
        Action::CreateEndpoint { at, first } => commit_create_endpoint(s, at, first),
        Action::Delete { at, object } => commit_delete(s, at, object),
        Action::Fill { at, right } => commit_fill(s, at, right),
        Action::Freeze { at } => commit_freeze(s, at),
        Action::Remove { at } => commit_remove(s, at),
        Action::SetPosition {
            directory,
            position,
            to,
        } => commit_set_position(s, directory, position, to),
        Action::ChangeTable { process, table } => commit_change_table(s, process, table),
        Action::ChangeDirectory { process, directory } => commit_change_directory(
            s, process, directory,
        ),
        Action::SetCount {
            endpoint,
            count,
            taken,
        } => commit_set_count(s, endpoint, count, taken),
        Action::Answer(_) => {}
    }
}
