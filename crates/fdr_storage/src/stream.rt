//! What a stream does.

ghost use Rattle.std.specs.Prelude.{◌≡◌, ◌<◌, ◌≤◌, Bool, List, ℕ, length, drop, IfOk, OnErr, IsTrue};
ghost use Rattle.fdr_io.specs.Told.{Gives};

use crate::Refusal;
use std::io::ErrorKind;

/// A stream, by the calls of the system that open it and read it. A read may fail, be interrupted or give less than asked for.
pub trait Stream {
    // Whether streams of this kind tell their bytes.
    ghost tells: { Bool };

    // The bytes that are left, where they are told.
    ghost rest: { Self → List ℕ };

    /// Opens the stream. A standard stream is open.
    fn open(&mut self) -> Result<(), Refusal>
        ensures { rest self.new ≡ rest self.old };

    /// Puts the next bytes at the front of the buffer and answers how many, 0 at the end alone. One that failed or was
    /// interrupted took none.
    fn read(&mut self, buf: &mut [u8]) -> Result<usize, Refusal>
        requires { 0 < length buf.old }
        ensures bound { IfOk result (λ n. n ≤ length buf.new) }
        ensures given { IfOk result (λ n. IsTrue tells → Gives (rest self.old) buf.new n) }
        ensures left { IfOk result (λ n. IsTrue tells → rest self.new ≡ drop n (rest self.old)) }
        ensures kept { OnErr result (rest self.new ≡ rest self.old) };

    /// The kind of the last error, if there was one.
    fn last_error(&self) -> Option<ErrorKind>;
}
