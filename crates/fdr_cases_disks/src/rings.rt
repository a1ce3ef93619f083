//! A block in a ring whose last sync failed.

use crate::disks::calls_of;
use fdr_deck::{Deck, MemDeck, Tear};
use fdr_recover::{RingFault, read_image_header};
use fdr_ring::{Ring, format};
use fdr_slot::{Header, OPEN};
use std::process::Abort;

const SMALL: Header = Header {
    slots: 4,
    payload: 64,
    words: 64,
    version: 2,
};

// Makes an image and prepares a block: whether the disk then failed as it was committed.
fn fails_to_commit(deck: &mut MemDeck) -> Result<bool, RingFault> {
    let prepared = format(deck, &SMALL)?.prepare(deck, 1, &[7; 9])?;
    Ok(matches!(prepared.commit(deck), Err(RingFault::DiskFault)))
}

// The next number and the session of a ring that is attached to the image on the disk.
fn attached(deck: &mut MemDeck) -> Result<(u64, u32), RingFault> {
    let header = read_image_header(deck)?;
    let ring = Ring::attach(deck, header)?;
    Ok((ring.next(), ring.session()))
}

// The gate of the first slot after a stop within this call, where nothing is left of what is pending.
fn gate_left(rt: &(impl Abort + AllocGlobal), deck: &MemDeck, call: u64) -> Option<u8> {
    assert!(rt; call < deck.calls());
    let image = deck.stop(rt.alloc(), call, Tear::Old).expect(rt, "a stop");
    image.get(64).copied()
}

// Call 10 is the sync of the gate. The look at the header is the first call of those that attach the ring, and the last one syncs.
#[test]
fn a_block_that_is_found_again_is_durable(rt: HostRuntime) {
    let alloc = rt.alloc();
    let mut deck = MemDeck::new(
        alloc,
        Vec::new(alloc),
        Vec::new(alloc),
        calls_of(&rt, &[10]),
    );
    assert!(rt; fails_to_commit(&mut deck) == Ok(true) && attached(&mut deck) == Ok((1, 1)));
    let after = deck.calls();
    assert!(rt;
        deck.size() == Ok(384)
            && gate_left(&rt, &deck, 11) == Some(0)
            && gate_left(&rt, &deck, after) == Some(OPEN)
    );
}
