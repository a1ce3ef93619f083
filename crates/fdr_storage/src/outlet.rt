//! What an outlet does.

ghost use Rattle.std.specs.Prelude.{◌≡◌, ◌<◌, ◌≤◌, ◌++◌, Bool, List, ℕ, length, take, IfOk, OnErr, IsTrue};

use crate::Refusal;
use std::io::ErrorKind;

/// An outlet, by the call of the system that writes to it. A write may fail, be interrupted or take less than it is given.
pub trait Outlet {
    // Whether outlets of this kind tell their bytes.
    ghost tells: { Bool };

    // The bytes that were written, where they are told.
    ghost written: { Self → List ℕ };

    /// Takes bytes from the front and answers how many. One that failed or was interrupted took none.
    fn write(&mut self, bytes: &[u8]) -> Result<usize, Refusal>
        requires { 0 < length bytes.now }
        ensures bound { IfOk result (λ n. n ≤ length bytes.now) }
        ensures taken { IfOk result (λ n. IsTrue tells → written self.new ≡ written self.old ++ take n bytes.now) }
        ensures kept { OnErr result (written self.new ≡ written self.old) };

    /// The kind of the last error, if there was one.
    fn last_error(&self) -> Option<ErrorKind>;
}
