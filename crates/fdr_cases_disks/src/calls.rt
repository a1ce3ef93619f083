//! Calls of a disk and its input, as tables that the tests go through.

use fdr_deck::Deck;
use fdr_io::Failed;

/// A call of a deck, or two: what is read or written lies within the disk, whose size is asked for before.
#[derive(Clone, Copy)]
pub enum Call<'a> {
    Size,
    Provide(u64),
    /// Writes bytes from this one on.
    Write(u64, &'a [u8]),
    /// Reads four bytes from this one on.
    Read(u64),
    /// Reads no bytes of the front, without a look at the size.
    ReadNothing,
    /// The same of a write.
    WriteNothing,
    Sync,
    /// Pulls up to three bytes.
    Pull,
    Announce(u64),
}

/// What a call gives.
#[derive(Clone, Copy, PartialEq, Eq)]
pub enum Given {
    Nothing,
    Size(u64),
    Bytes([u8; 4]),
    Pulled(usize, [u8; 3]),
}

/// A call, and what it answers.
pub type Step<'a> = (Call<'a>, Result<Given, Failed>);

/// What is done.
pub const DONE: Result<Given, Failed> = Ok(Given::Nothing);

/// What fails.
pub const FAILED: Result<Given, Failed> = Err(Failed);

fn write<D: Deck>(deck: &mut D, at: u64, bytes: &[u8]) -> Result<Given, Failed> {
    let size = deck.size()?;
    if at > size || size - at < bytes.len() as u64 {
        return Err(Failed);
    }
    deck.write(at, bytes)?;
    DONE
}

fn read<D: Deck>(deck: &mut D, at: u64) -> Result<Given, Failed> {
    let mut bytes = [9; 4];
    let size = deck.size()?;
    if at > size || size - at < 4 {
        return Err(Failed);
    }
    deck.read(at, &mut bytes)?;
    Ok(Given::Bytes(bytes))
}

fn pull<D: Deck>(deck: &mut D) -> Result<Given, Failed> {
    let mut bytes = [0; 3];
    let count = deck.pull(&mut bytes)?;
    Ok(Given::Pulled(count, bytes))
}

fn announce<D: Deck>(deck: &mut D, number: u64) -> Result<Given, Failed> {
    deck.announce(number);
    DONE
}

/// What this call answers.
pub fn answer<D: Deck>(deck: &mut D, call: Call<'_>) -> Result<Given, Failed> {
    match call {
        Call::Size => deck.size().map(Given::Size),
        Call::Provide(size) => deck.provide(size).map(|()| Given::Nothing),
        Call::Write(at, bytes) => write(deck, at, bytes),
        Call::Read(at) => read(deck, at),
        Call::ReadNothing => deck.read(0, &mut []).map(|()| Given::Nothing),
        Call::WriteNothing => deck.write(0, &[]).map(|()| Given::Nothing),
        Call::Sync => deck.sync().map(|()| Given::Nothing),
        Call::Pull => pull(deck),
        Call::Announce(number) => announce(deck, number),
    }
}

/// Whether these calls, one after the other, have these answers.
pub fn gives<D: Deck>(deck: &mut D, steps: &[Step<'_>]) -> bool {
    for (call, wanted) in steps {
        if answer(deck, *call) != *wanted {
            return false;
        }
    }
    true
}
