ghost use Rattle.std.specs.Prelude.{◌≡◌, IfOk};

use crate::fault::NoMemory;
use std::alloc::Global;
use std::marker::Model;

/// The path of a file.
#[derive(Debug, Drop)]
pub struct PathText {
    path: String,
}

impl Model for PathText {
    ghost use Rattle.std.specs.Prelude.{ℕ, List, string_bytes};

    ghost Value = { List ℕ };

    ghost view = { λ p. string_bytes p.path };
}

impl PathText {
    /// The path with this text.
    pub fn new(alloc: Global, text: &str) -> Result<PathText, NoMemory>
        ensures { IfOk result (λ path. path ≡ text.now) }
    {
        let path = text.to_string(alloc)?;
        Ok(PathText { path })
    }

    /// The path's text.
    pub fn text(&self) -> &str
        ensures { result.now ≡ self.now }
    {
        self.path.as_str()
    }
}
