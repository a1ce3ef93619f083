//! What stops leave of a side of the twin in memory.

ghost use Rattle.std.specs.Prelude.{◌≡◌, ◌+◌, ◌<◌, ◌≤◌, length, take, slice_get, Some, replicate, IfOk, OnOk};
ghost use Rattle.fdr_deck.specs.Disk.{Torn, IsZeros};
ghost use Rattle.fdr_deck.specs.Memory.{held_by, held_after, left_after, left_within, FitsDisk, FitsIn, AreInside, IsLeftWithin, IsStoppedAfter};
ghost use Rattle.fdr_deck.specs.Stops.{torn_by, size_of, image_after, image_within, image_at};
ghost use Rattle.fdr_deck.specs.declared.calls.Entry.{Entry};
ghost use Rattle.fdr_twin.specs.declared.calls.SideCall.TheVariants.{Passed};
ghost use Rattle.fdr_twin.specs.TwinMemory.{call_of, call_on, entries_on};

use crate::Side;
use crate::calls::{SideCall, TwinEntry};
use fdr_deck::{NoMemory, Tear, copy_of, fill, patch, zeros_of};
use std::alloc::Global;

// Tears a range that these bytes were to be written to.
fn tear_range(image: &mut [u8], at: usize, bytes: &[u8], tear: Tear)
    requires { at + length bytes.now ≤ length image.old }
    ensures torn { Torn at (length bytes.now) image.old image.new }
    ensures image { image.new ≡ torn_by tear at bytes.now image.old }
{
    match tear {
        Tear::Old => {}
        Tear::New => patch(image, at, bytes),
        Tear::Half => patch(image, at, &bytes[..bytes.len() / 2]),
        Tear::Fill(byte) => fill(image, at, bytes.len(), byte),
    }
}

// The zeros of a disk that was to be provided.
fn tear_zeros(alloc: Global, size: usize, tear: Tear) -> Result<Vec<u8>, NoMemory>
    ensures zeros { IfOk result (λ image. IsZeros size image.items) }
    ensures image { IfOk result (λ image. image.items ≡ replicate (size_of tear size) 0) }
{
    let size = match tear {
        Tear::Old => 0,
        Tear::Half => size / 2,
        Tear::New | Tear::Fill(_) => size,
    };
    zeros_of(alloc, size)
}

// What a stop within this call leaves, where one before it left this image.
fn stop_within(
    alloc: Global,
    call: &SideCall,
    mut left: Vec<u8>,
    tear: Tear,
) -> Result<Vec<u8>, NoMemory>
    requires { FitsIn (call_of call.now) (length left.items) }
    ensures stopped { IfOk result (λ image. IsLeftWithin (call_of call.now) left.items image.items) }
    ensures image { IfOk result (λ image. image.items ≡ image_within tear (call_of call.now) left.items) }
{
    match call {
        SideCall::Passed | SideCall::Synced => Ok(left),
        SideCall::Wrote { at, bytes } | SideCall::FailedToWrite { at, bytes } => {
            tear_range(&mut left, *at, bytes, tear);
            Ok(left)
        }
        SideCall::Provided { size } | SideCall::FailedToProvide { size } => tear_zeros(
            alloc, *size, tear,
        ),
    }
}

// What a stop after this call leaves, where one before it left this image.
fn stop_after(
    alloc: Global,
    call: &SideCall,
    held: &[u8],
    left: Vec<u8>,
    tear: Tear,
) -> Result<Vec<u8>, NoMemory>
    requires { FitsIn (call_of call.now) (length left.items) }
    ensures stopped { IfOk result (λ image. IsStoppedAfter (call_of call.now) held.now left.items image.items) }
    ensures image { IfOk result (λ image. image.items ≡ image_after tear (call_of call.now) held.now left.items) }
{
    match call {
        SideCall::Synced => copy_of(alloc, held),
        SideCall::Provided { size } => zeros_of(alloc, *size),
        SideCall::Passed
        | SideCall::Wrote { .. }
        | SideCall::FailedToWrite { .. }
        | SideCall::FailedToProvide { .. } => stop_within(alloc, call, left, tear),
    }
}

// Does to what is held what this call did.
fn replay(alloc: Global, call: &SideCall, held: &mut Vec<u8>) -> Result<(), NoMemory>
    requires { FitsDisk (call_of call.now) held.old.items }
    ensures { OnOk result (held.new.items ≡ held_by (call_of call.now) held.old.items) }
{
    match call {
        SideCall::Wrote { at, bytes } => patch(held, *at, bytes),
        SideCall::Provided { size } => *held = zeros_of(alloc, *size)?,
        SideCall::Passed
        | SideCall::Synced
        | SideCall::FailedToWrite { .. }
        | SideCall::FailedToProvide { .. } => {}
    }
    Ok(())
}

// The call of an entry, as the disk of a side sees it: one of the other side is nothing to it.
fn seen_by<'a>(entry: &'a TwinEntry, side: Side, none: &'a SideCall) -> &'a SideCall
    requires { none.now ≡ Passed }
    ensures { call_of result.now ≡ call_on side entry.now }
{
    match side {
        Side::First => match entry.side {
            Side::First => &entry.call,
            Side::Second => none,
        },
        Side::Second => match entry.side {
            Side::First => none,
            Side::Second => &entry.call,
        },
    }
}

// What a stop after these calls leaves of a side that held this content at first.
fn stop_before(
    alloc: Global,
    entries: &[TwinEntry],
    side: Side,
    none: &SideCall,
    first: &[u8],
    tear: Tear,
) -> Result<Vec<u8>, NoMemory>
    requires inside { AreInside (entries_on side entries.now) first.now }
    requires none { none.now ≡ Passed }
    ensures left { IfOk result (λ image. left_after (entries_on side entries.now) first.now (λ i. i ≡ first.now) image.items) }
    ensures long { IfOk result (λ image. length (held_after (entries_on side entries.now) first.now) ≤ length image.items) }
    ensures image { IfOk result (λ image. image.items
        ≡ image_at tear (entries_on side entries.now) (length (entries_on side entries.now)) first.now first.now) }
{
    let mut held = copy_of(alloc, first)?;
    let mut left = copy_of(alloc, first)?;
    for entry in entries {
        let call = seen_by(entry, side, none);
        left = stop_after(alloc, call, &held, left, tear)?;
        replay(alloc, call, &mut held)?;
    }
    Ok(left)
}

/// What a stop within the call of this number leaves of a side that held this content at first.
pub fn stop_side(
    alloc: Global,
    entries: &[TwinEntry],
    call: usize,
    side: Side,
    first: &[u8],
    tear: Tear,
) -> Result<Vec<u8>, NoMemory>
    requires inside { AreInside (entries_on side entries.now) first.now }
    requires made { call < length entries.now }
    ensures image { IfOk result (λ image. image.items ≡ image_at tear (entries_on side entries.now) call first.now first.now) }
    ensures left { IfOk result (λ image. (e : Entry) → slice_get (entries_on side entries.now) call ≡ Some e
        → left_within e.call (held_after (take call (entries_on side entries.now)) first.now)
        (left_after (take call (entries_on side entries.now)) first.now (λ i. i ≡ first.now)) image.items) }
{
    let none = SideCall::Passed;
    let left = stop_before(alloc, &entries[..call], side, &none, first, tear)?;
    let image = stop_within(alloc, seen_by(&entries[call], side, &none), left, tear)?;
    Ok(image)
}
