//! What is told of a call of the system that did nothing.

ghost use Rattle.std.specs.Prelude.{◌≡◌, IfOk, Result, Ok};

use fdr_io::Failed;
use fdr_storage::Refusal;
use std::fs::File;
use std::io;
use std::io::ErrorKind;

/// Keeps which kind of error it was, but of an interruption.
pub fn told<T: Drop>(last: &mut Option<ErrorKind>, outcome: io::Result<T>) -> Result<T, Refusal>
    ensures { IfOk result (λ x. outcome ≡ Ok x) }
{
    match outcome {
        Ok(value) => Ok(value),
        Err(error) => match error.kind() {
            ErrorKind::Interrupted => Err(Refusal::Interrupted),
            kind => {
                *last = Some(kind);
                Err(Refusal::Failed)
            }
        },
    }
}

/// The same, where an interruption is a fault too.
pub fn done<T: Drop>(outcome: Result<T, Refusal>) -> Result<T, Failed>
    ensures { IfOk result (λ x. outcome ≡ Ok x) }
{
    outcome.map_err(|_| Failed)
}

/// The file, which is open.
pub fn opened<'f>(
    file: &'f Option<File>,
    last: &mut Option<ErrorKind>,
) -> Result<&'f File, Refusal> {
    told(last, file.as_ref().ok_or(ErrorKind::NotFound.into()))
}
