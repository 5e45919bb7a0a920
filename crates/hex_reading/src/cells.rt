// A cell stands for each byte of the state: the byte, once it has been given.
ghost use Rattle.std.specs.List.{list_all};
ghost use Rattle.std.specs.Option.{is_none, is_some};
ghost use Rattle.std.specs.Prelude.{◌≡◌, ◌+◌, ◌≤◌, drop, length, take};
ghost use Rattle.intel_hex.specs.Marks.{data_at};
ghost use Rattle.intel_hex.specs.Pairs.{pairs};
ghost use Rattle.intel_hex.specs.Reading.{filled, given};
ghost use Rattle.hex_reading.specs.Numbers.{numbers};

use crate::records::Record;
use intel_hex::marks::DATA_AT;

pub(crate) fn vacant(cells: &[Option<u8>]) -> bool
    ensures { result ≡ list_all is_none cells.now }
{
    cells.iter().all(|cell| cell.is_none())
}

pub(crate) fn full(cells: &[Option<u8>]) -> bool
    ensures { result ≡ list_all is_some cells.now }
{
    cells.iter().all(|cell| cell.is_some())
}

// The first bytes of a record's data, one into each of these cells.
pub(crate) fn place(cells: &mut [Option<u8>], spelled: &Record)
    requires { data_at + length cells.old ≤ length (pairs spelled.now.digits.now) }
    ensures { numbers cells.new ≡ filled (take (length cells.old) (drop data_at (pairs spelled.now.digits.now))) }
{
    for (k, cell) in cells.iter_mut().enumerate() {
        *cell = Some(spelled.byte(DATA_AT + k));
    }
}

// The bytes that were given; 0 where none was, as given of the rules has it.
pub(crate) fn bytes_of(cells: &[Option<u8>], state: &mut [u8])
    requires { length cells.now ≡ length state.old }
    ensures { state.new ≡ given (numbers cells.now) }
{
    for (k, cell) in cells.iter().enumerate() {
        state[k] = cell.unwrap_or(0);
    }
}
