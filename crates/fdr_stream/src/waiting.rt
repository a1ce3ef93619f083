//! The words that wait for a block.

ghost use Rattle.std.specs.Prelude.{◌≡◌, ◌<◌, ◌≤◌, ◌+◌, ◌*◌, ◌/◌, [], ◌∷◌, ◌++◌, None, IfOk, length, replicate, take, drop};
ghost use Rattle.fdr_stream.specs.Packing.{last_byte};
ghost use Rattle.fdr_stream.specs.Waiting.{with_words};

use fdr_table::NoMemory;
use std::alloc::Global;
use std::marker::Model;

/// Words of 12 bits that wait, packed one after another, in room for a block and two bytes. After them the room is 0, so
/// that further words that are 0 cost nothing.
#[derive(Drop)]
pub(crate) struct Waiting {
    room: Vec<u8>,
    // How many half bytes wait: a word has three.
    halves: usize,
}

impl Model for Waiting {
    ghost use Rattle.fdr_stream.specs.Waiting.{WaitingBytes, waiting_of, IsWaiting};

    ghost Value = { WaitingBytes };

    ghost view = { λ w. waiting_of w.room.items w.halves };

    ghost invariant = { λ w. IsWaiting w.room.items w.halves };
}

impl Waiting {
    /// Room for `capacity` bytes.
    pub(crate) fn with_capacity(alloc: Global, capacity: usize) -> Result<Waiting, NoMemory>
        ensures { IfOk result (λ w. w ≡ record { items = []; odd = None; capacity = capacity }) }
    {
        let Ok(room) = vec![in alloc; 0; capacity] else {
            return Err(NoMemory);
        };
        Ok(Waiting { room, halves: 0 })
    }

    /// How many whole bytes wait.
    pub(crate) fn len(&self) -> usize
        ensures len { result ≡ length self.now.items }
        ensures within { result ≤ self.now.capacity }
    {
        self.halves / 2
    }

    /// Puts a word after those that wait.
    pub(crate) fn push(&mut self, word: u16)
        requires twelve_bits { word < 4096 }
        requires room { length self.old.items + 2 ≤ self.old.capacity }
        ensures { self.new ≡ with_words self.old (word ∷ []) }
    {
        let at = self.halves / 2;
        let bits = word << (4 * (self.halves % 2) as u32);
        self.room[at] += (bits & 0xff) as u8;
        self.room[at + 1] = (bits >> 8) as u8;
        self.halves += 3;
    }

    /// Puts `count` words that are 0 after those that wait.
    pub(crate) fn push_zeros(&mut self, count: usize)
        requires few { count ≤ 4096 }
        requires room { length self.old.items + 3 * count / 2 + 1 ≤ self.old.capacity }
        ensures { self.new ≡ with_words self.old (replicate count 0) }
    {
        self.halves += 3 * count;
    }

    /// Fills four bits that wait with zero bits.
    pub(crate) fn fill_byte(&mut self)
        requires { length self.old.items < self.old.capacity }
        ensures { self.new ≡ record self.old { items = self.old.items ++ last_byte self.old.odd; odd = None } }
    {
        self.halves += self.halves % 2;
    }

    /// Moves the first `count` bytes to the front of `out`. At most one byte and four bits are after them.
    pub(crate) fn give(&mut self, count: usize, out: &mut [u8])
        requires whole { count ≤ length self.old.items }
        requires few_left { length self.old.items ≤ count + 1 }
        requires room { count + 2 ≤ self.old.capacity }
        requires fits { count ≤ length out.old }
        ensures given { out.new ≡ take count self.old.items ++ drop count out.old }
        ensures rest { self.new ≡ record self.old { items = drop count self.old.items } }
    {
        out[..count].copy_from_slice(&self.room[..count]);
        let next = self.room[count];
        let last = self.room[count + 1];
        self.room.fill(0);
        self.room[0] = next;
        self.room[1] = last;
        self.halves -= 2 * count;
    }
}
