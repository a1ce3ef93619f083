ghost use Rattle.std.specs.Prelude.{◌≡◌, ◌↔◌, IsTrue, IsSome, IfSome, ◌≤◌, length, take};
ghost use Rattle.std.specs.List.{list_all};
ghost use Rattle.fdr_table.specs.Bounds.{most_name_bytes};
ghost use Rattle.fdr_table.specs.Fields.{is_name, is_name_byte};

use std::marker::Model;

/// A parameter's name: 1 to 16 bytes, letters A to Z and a to z, digits, `_`, `-` and `.`.
#[derive(Debug, Drop)]
pub struct Name {
    bytes: [u8; 16],
    len: usize,
}

impl Model for Name {
    ghost use Rattle.std.specs.Prelude.{ℕ, List, ◌≤◌, take, IsTrue};
    ghost use Rattle.fdr_table.specs.Bounds.{most_name_bytes};
    ghost use Rattle.fdr_table.specs.Fields.{is_name};

    ghost Value = { List ℕ };

    ghost view = { λ n. take n.len n.bytes };

    ghost invariant = { λ n. (n.len ≤ most_name_bytes) × IsTrue (is_name (take n.len n.bytes)) };
}

impl Name {
    /// The name of these bytes, if they are one.
    pub fn new(bytes: &[u8]) -> Option<Name>
        ensures exactly { IsSome result ↔ IsTrue (is_name bytes.now) }
        ensures bytes { IfSome result (λ name. name ≡ bytes.now) }
    {
        if !is_name(bytes) {
            return None;
        }
        let mut stored = [0; 16];
        stored[..bytes.len()].copy_from_slice(bytes);
        Some(Name {
            bytes: stored,
            len: bytes.len(),
        })
    }

    /// The name's bytes.
    pub fn bytes(&self) -> &[u8]
        ensures bytes { result.now ≡ self.now }
        ensures allowed { IsTrue (is_name result.now) }
        ensures name_limit { length result.now ≤ most_name_bytes }
    {
        &self.bytes[..self.len]
    }

    /// The name's bytes with others after them, and how many are its own. A copy of all sixteen, whose number the compiler
    /// knows, is faster than one of as many as the name has.
    pub fn padded(&self) -> (&[u8; 16], usize)
        ensures bytes { take result.1 result.0.now ≡ self.now }
        ensures allowed { IsTrue (is_name (take result.1 result.0.now)) }
        ensures length { length self.now ≡ result.1 }
        ensures name_limit { result.1 ≤ most_name_bytes }
    {
        (&self.bytes, self.len)
    }

    /// A copy of the name.
    pub fn copied(&self) -> Name
        ensures { result ≡ self.now }
    {
        Name {
            bytes: self.bytes,
            len: self.len,
        }
    }
}

fn is_name_byte(byte: u8) -> bool
    ensures { result ≡ is_name_byte byte }
{
    byte.is_ascii_alphanumeric() || byte == b'_' || byte == b'-' || byte == b'.'
}

fn are_name_bytes(bytes: &[u8]) -> bool
    ensures { result ≡ list_all is_name_byte bytes.now }
{
    bytes.iter().all(|byte| is_name_byte(*byte))
}

#[tactic(auto, using(crate::proofs::FieldFacts::names))]
fn is_name(bytes: &[u8]) -> bool
    ensures exactly { result ≡ is_name bytes.now }
    ensures length { IsTrue result → length bytes.now ≤ most_name_bytes }
{
    if bytes.is_empty() || 16 < bytes.len() {
        return false;
    }
    are_name_bytes(bytes)
}
