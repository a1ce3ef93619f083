//! Output in large pieces.

ghost use Rattle.std.specs.Prelude.{◌≡◌, ℕ, ◌+◌, ◌≤◌, List, [], ◌++◌, take, length, IfOk, OnOk, OnErr};
ghost use Rattle.fdr_io.specs.Faults.{Rose};
ghost use Rattle.fdr_io.specs.Told.{followed_by};
ghost use Rattle.fdr_io.specs.Output.{Emits, EmitsPart};

use crate::{Failed, Sink, write_whole};
use std::alloc::{AllocError, Global};
use std::marker::Model;

/// Gathers output into large pieces, so that a sink is called seldom. A clause sees it as the
/// bytes that wait to be written.
#[derive(Drop)]
pub struct OutBuffer {
    room: Vec<u8>,
    used: usize,
}

impl Model for OutBuffer {
    ghost use Rattle.std.specs.Prelude.{◌≡◌, ◌≤◌, ℕ, List, length, take};

    ghost Value = { List ℕ };

    ghost view = { λ b. take b.used b.room.items };

    ghost invariant = { λ b. (length b.room.items ≡ 65536) × (b.used ≤ 65536) };
}

/// How many bytes wait at most.
const CAPACITY: usize = 65536;

impl OutBuffer {
    /// A buffer of 65,536 bytes, empty. This takes all the memory that it needs.
    pub fn new(alloc: Global) -> Result<OutBuffer, AllocError>
        ensures { IfOk result (λ b. b ≡ []) }
    {
        let room = vec![in alloc; 0; CAPACITY]?;
        Ok(OutBuffer { room, used: 0 })
    }

    /// Adds bytes, and writes what waits where they don't fit. At `Failed` a front part of all
    /// that was to go out did, and the rest is dropped.
    #[tactic(auto, using(crate::proofs::Telling::telling))]
    pub fn add<S: Sink>(&mut self, out: &mut S, bytes: &[u8]) -> Result<(), Failed>
        ensures all { OnOk result (Emits (S.written out.old) (S.written out.new) self.old self.new bytes.now) }
        ensures part { OnErr result (EmitsPart (S.written out.old) (S.written out.new) self.old bytes.now) }
        ensures dropped { OnErr result (self.new ≡ []) }
        ensures held { length self.new ≤ 65536 }
        ensures cause { OnErr result (Rose (S.faults out.old) (S.faults out.new)) }
        ensures no_fault { OnOk result (S.faults out.new ≡ S.faults out.old) }
        ensures monotone { S.faults out.old ≤ S.faults out.new }
    {
        if bytes.len() <= CAPACITY - self.used {
            self.put_all(bytes);
            return Ok(());
        }
        self.finish(out)?;
        if bytes.len() > CAPACITY {
            return write_whole(out, bytes);
        }
        self.put_all(bytes);
        Ok(())
    }

    /// Writes all that waits. At `Failed` a front part of it went out, and the rest is dropped.
    #[tactic(auto, using(crate::proofs::Telling::telling))]
    pub fn finish<S: Sink>(&mut self, out: &mut S) -> Result<(), Failed>
        ensures all { OnOk result (S.written out.new ≡ followed_by (S.written out.old) self.old) }
        ensures part { OnErr result ((k : ℕ) × (S.written out.new ≡ followed_by (S.written out.old) (take k self.old))) }
        ensures empty { self.new ≡ [] }
        ensures cause { OnErr result (Rose (S.faults out.old) (S.faults out.new)) }
        ensures no_fault { OnOk result (S.faults out.new ≡ S.faults out.old) }
        ensures monotone { S.faults out.old ≤ S.faults out.new }
    {
        let waiting = self.used;
        self.used = 0;
        write_whole(out, &self.room[..waiting])
    }

    /// Makes room for `count` bytes more, and writes what waits where they don't fit. At `Failed` a front part of it went
    /// out, and the rest is dropped.
    #[tactic(auto, using(crate::proofs::Telling::telling))]
    pub fn make_room<S: Sink>(&mut self, out: &mut S, count: usize) -> Result<(), Failed>
        requires { count ≤ 65536 }
        ensures all { OnOk result (Emits (S.written out.old) (S.written out.new) self.old self.new []) }
        ensures room { OnOk result (length self.new + count ≤ 65536) }
        ensures part { OnErr result (EmitsPart (S.written out.old) (S.written out.new) self.old []) }
        ensures dropped { OnErr result (self.new ≡ []) }
        ensures cause { OnErr result (Rose (S.faults out.old) (S.faults out.new)) }
        ensures no_fault { OnOk result (S.faults out.new ≡ S.faults out.old) }
        ensures monotone { S.faults out.old ≤ S.faults out.new }
    {
        if CAPACITY - self.used < count {
            self.finish(out)?;
        }
        Ok(())
    }

    /// Puts the first `count` of these bytes at the end, where room was made for all of them. The copy is one of all `N`,
    /// whose length the compiler knows: that is faster than one of `count`.
    pub fn put<const N: usize>(&mut self, bytes: &[u8; N], count: usize)
        requires room { length self.old + N ≤ 65536 }
        requires front { count ≤ N }
        ensures appended { self.new ≡ self.old ++ take count bytes.now }
        ensures length { length self.new ≡ length self.old + count }
    {
        self.used = lay(&mut self.room, self.used, bytes, count);
    }

    /// Puts three texts at the end, of each as many of its first bytes as its number says, where room was made for all of them. What waits
    /// is counted once for the three.
    #[inline(always)]
    pub fn put_three<const A: usize, const B: usize, const C: usize>(
        &mut self,
        first: (&[u8; A], usize),
        second: (&[u8; B], usize),
        third: (&[u8; C], usize),
    )
        requires room { length self.old + A + B + C ≤ 65536 }
        requires first { first.1 ≤ A }
        requires second { second.1 ≤ B }
        requires third { third.1 ≤ C }
        ensures appended { self.new ≡ self.old ++ take first.entry.1 first.entry.0.now ++ take second.entry.1 second.entry.0.now ++ take third.entry.1 third.entry.0.now }
        ensures length { length self.new ≡ length self.old + first.entry.1 + second.entry.1 + third.entry.1 }
    {
        let end = lay(&mut self.room, self.used, first.0, first.1);
        let end = lay(&mut self.room, end, second.0, second.1);
        self.used = lay(&mut self.room, end, third.0, third.1);
    }

    /// Puts these bytes at the end, where room was made for them.
    pub fn put_all(&mut self, bytes: &[u8])
        requires { length self.old + length bytes.now ≤ 65536 }
        ensures appended { self.new ≡ self.old ++ bytes.now }
        ensures length { length self.new ≡ length self.old + length bytes.now }
    {
        let end = self.used + bytes.len();
        self.room[self.used..end].copy_from_slice(bytes);
        self.used = end;
    }
}

/// Lays a text at a place of the room, and answers where its first `count` bytes end there.
#[inline(always)]
fn lay<const N: usize>(room: &mut [u8], at: usize, text: &[u8; N], count: usize) -> usize
    requires room { at + N ≤ length room.old }
    requires front { count ≤ N }
    ensures end { result ≡ at + count }
    ensures laid { take result room.new ≡ take at room.old ++ take count text.now }
    ensures length { length room.new ≡ length room.old }
{
    // The copy of the text can't overlap the room, which spares a test.
    let text = *text;
    room[at..at + N].copy_from_slice(&text);
    at + count
}
