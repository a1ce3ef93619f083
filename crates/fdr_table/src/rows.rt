ghost use Rattle.std.specs.Prelude.{◌≡◌, true};
ghost use Rattle.csv.specs.Reading.{error_kind, stops_reader};

use crate::fault::NoMemory;
use csv::{Error, ErrorKind};

/// Why the next row of a table's bytes didn't come. The bytes are in memory, so that their source doesn't fail, and any
/// bytes and any count of fields are a row: memory alone is left.
pub(crate) fn want_of_memory(error: &Error) -> NoMemory
    requires { stops_reader (error_kind error.now) ≡ true }
{
    match error.kind() {
        ErrorKind::Io(_) | ErrorKind::OutOfMemory => NoMemory,
        ErrorKind::Utf8 { .. }
        | ErrorKind::UnequalLengths { .. }
        | ErrorKind::Serialize(_)
        | ErrorKind::Deserialize { .. } => unreachable!(),
    }
}
