//! The payload and the session of a block.

ghost use Rattle.std.specs.Prelude.{◌≡◌, ◌≤◌, ◌<◌, ◌↔◌, None, take, length, IfOk, OnOk, OnErr, IsTrue};
ghost use Rattle.fdr_io.specs.Faults.{Rose};
ghost use Rattle.fdr_deck.specs.Calls.{Succeeds};
ghost use Rattle.fdr_slot.specs.Limits.{IsInLimits, sequence_end};
ghost use Rattle.fdr_slot.specs.Places.{image_size};
ghost use Rattle.fdr_recover.specs.Images.{block_numbered, payload_at, session_at};
ghost use Rattle.fdr_recover.specs.Looks.{Looks};

use crate::slots::head_numbered;
use fdr_deck::Deck;
use fdr_io::Failed;
use fdr_slot::{Header, gate_at, session_in};

/// How long the payload of a block is, and which session the block is of.
#[derive(Clone, Copy, PartialEq, Eq, Debug)]
pub struct BlockInfo {
    /// The bytes of its payload, at most the header's `payload`; 0 where there is no block.
    pub len: usize,
    /// Its session; 0 where there is no block, and in version 1.
    pub session: u32,
}

/// Puts the payload of the block with a number at the front of the buffer, and answers its length and the block's session. Both
/// are 0 where the number's slot doesn't hold it.
pub fn block<D: Deck>(
    deck: &mut D,
    h: &Header,
    seq: u64,
    buf: &mut [u8],
) -> Result<BlockInfo, Failed>
    requires limits { IsInLimits h.now }
    requires whole { image_size h.now ≤ (D.state deck.old).extent }
    requires fits { seq < sequence_end }
    requires room { h.now.payload ≤ length buf.old }
    ensures payload { IsTrue D.tells.bytes
        → IfOk result (λ info. take info.len buf.new ≡ payload_at h.now (D.state deck.old).held seq) }
    ensures session { IsTrue D.tells.bytes → IfOk result (λ info. info.session ≡ session_at h.now (D.state deck.old).held seq) }
    ensures none { IsTrue D.tells.bytes
        → IfOk result (λ info. (info.len ≡ 0) ↔ (block_numbered h.now (D.state deck.old).held seq ≡ None)) }
    ensures bound { IfOk result (λ info. info.len ≤ h.now.payload) }
    ensures no_block { IfOk result (λ info. info.len ≡ 0 → info.session ≡ 0) }
    ensures old_version { h.now.version ≡ 1 → IfOk result (λ info. info.session ≡ 0) }
    ensures looks { Looks D.tells (D.state deck.old) (D.state deck.new) }
    ensures succeeds { OnOk result (Succeeds (D.state deck.old) (D.state deck.new)) }
    ensures cause { OnErr result (Rose (D.state deck.old).disk_faults (D.state deck.new).disk_faults) }
    ensures rest { D.same_rest deck.old deck.new }
{
    let Some(head) = head_numbered(deck, h, seq)? else {
        return Ok(BlockInfo { len: 0, session: 0 });
    };
    let len = usize::from(head.len);
    deck.read(gate_at(h, seq) + 16, &mut buf[..len])?;
    Ok(BlockInfo {
        len,
        session: session_in(h, &head),
    })
}
