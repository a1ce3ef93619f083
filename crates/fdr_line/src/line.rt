ghost use Rattle.std.specs.Prelude.{◌≡◌, ◌+◌, ◌≤◌, [], ◌++◌, length, decimal};

use itoa::Buffer;
use std::marker::Model;

/// How many bytes a line has at most.
const ROOM: usize = 96;

/// A line of text of at most 96 bytes, made without memory.
#[derive(Debug, Drop)]
pub struct Line {
    room: [u8; 96],
    used: usize,
}

impl Model for Line {
    ghost use Rattle.std.specs.Prelude.{ℕ, List};

    ghost Value = { List ℕ };

    ghost use Rattle.fdr_line.specs.Line.{line_bytes, IsWithin};

    ghost view = { line_bytes };

    ghost invariant = { IsWithin };
}

impl Line {
    /// The empty line.
    pub fn new() -> Line
        ensures empty { result ≡ [] }
        ensures length { length result ≡ 0 }
    {
        Line {
            room: [0; ROOM],
            used: 0,
        }
    }

    /// The line's bytes.
    pub fn bytes(&self) -> &[u8]
        ensures content { result.now ≡ self.now }
        ensures length { length result.now ≡ length self.now }
        ensures short { length result.now ≤ 96 }
    {
        &self.room[..self.used]
    }

    /// Adds bytes, for which there is room, at the line's end.
    pub fn add(&mut self, bytes: &[u8])
        requires { length self.old + length bytes.now ≤ 96 }
        ensures appended { self.new ≡ self.old ++ bytes.now }
        ensures length { length self.new ≡ length self.old + length bytes.now }
    {
        let end = self.used + bytes.len();
        self.room[self.used..end].copy_from_slice(bytes);
        self.used = end;
    }

    /// Adds the digits of a whole number, for which there is room, without leading zeros.
    pub fn add_number(&mut self, n: u64)
        requires { length self.old + length (decimal n) ≤ 96 }
        ensures appended { self.new ≡ self.old ++ decimal n }
        ensures length { length self.new ≡ length self.old + length (decimal n) }
    {
        let mut buffer = Buffer::new();
        let digits = buffer.format(n);
        self.add(digits.as_bytes());
    }
}
