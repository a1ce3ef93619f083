//! What stops leave of the disk of the deck in memory.

ghost use Rattle.std.specs.Prelude.{◌≡◌, ◌+◌, ◌<◌, ◌≤◌, length, take, slice_get, Some, replicate, IfOk, OnOk};
ghost use Rattle.fdr_deck.specs.Disk.{Torn, IsZeros};
ghost use Rattle.fdr_deck.specs.Memory.{held_by, held_after, left_after, left_within, FitsDisk, FitsIn, AreInside, IsLeftWithin, IsStoppedAfter};
ghost use Rattle.fdr_deck.specs.Stops.{torn_by, size_of, image_after, image_within, image_at};
ghost use Rattle.fdr_deck.specs.declared.calls.Entry.{Entry};

use crate::NoMemory;
use crate::calls::{Call, Entry};
use crate::image::{copy_of, fill, patch, zeros_of};
use std::alloc::Global;

/// What the pending ranges hold after a stop.
#[derive(Clone, Copy, Debug, PartialEq, Eq)]
pub enum Tear {
    /// The bytes that were settled before.
    Old,
    /// The bytes that were written.
    New,
    /// The first half of the bytes of each write, rounded down, and after it the old ones.
    Half,
    /// This byte throughout.
    Fill(u8),
}

// Tears a range that these bytes were to be written to.
fn tear_range(image: &mut [u8], at: usize, bytes: &[u8], tear: Tear)
    requires { at + length bytes.now ≤ length image.old }
    ensures torn { Torn at (length bytes.now) image.old image.new }
    ensures image { image.new ≡ torn_by tear at bytes.now image.old }
{
    match tear {
        Tear::Old => {}
        Tear::New => patch(image, at, bytes),
        Tear::Half => patch(image, at, &bytes[..bytes.len() / 2]),
        Tear::Fill(byte) => fill(image, at, bytes.len(), byte),
    }
}

// The zeros of a disk that was to be provided.
fn tear_zeros(alloc: Global, size: usize, tear: Tear) -> Result<Vec<u8>, NoMemory>
    ensures zeros { IfOk result (λ image. IsZeros size image.items) }
    ensures image { IfOk result (λ image. image.items ≡ replicate (size_of tear size) 0) }
{
    let size = match tear {
        Tear::Old => 0,
        Tear::Half => size / 2,
        Tear::New | Tear::Fill(_) => size,
    };
    zeros_of(alloc, size)
}

// What a stop within this call leaves, where one before it left this image.
fn stop_within(
    alloc: Global,
    call: &Call,
    mut left: Vec<u8>,
    tear: Tear,
) -> Result<Vec<u8>, NoMemory>
    requires { FitsIn call.now (length left.items) }
    ensures stopped { IfOk result (λ image. IsLeftWithin call.now left.items image.items) }
    ensures image { IfOk result (λ image. image.items ≡ image_within tear call.now left.items) }
{
    match call {
        Call::Pass | Call::Sync => Ok(left),
        Call::Write { at, bytes } | Call::FailedWrite { at, bytes } => {
            tear_range(&mut left, *at, bytes, tear);
            Ok(left)
        }
        Call::Provide { size } | Call::FailedProvide { size } => tear_zeros(alloc, *size, tear),
    }
}

// What a stop after this call leaves, where one before it left this image.
fn stop_after(
    alloc: Global,
    call: &Call,
    held: &[u8],
    left: Vec<u8>,
    tear: Tear,
) -> Result<Vec<u8>, NoMemory>
    requires { FitsIn call.now (length left.items) }
    ensures stopped { IfOk result (λ image. IsStoppedAfter call.now held.now left.items image.items) }
    ensures image { IfOk result (λ image. image.items ≡ image_after tear call.now held.now left.items) }
{
    match call {
        Call::Sync => copy_of(alloc, held),
        Call::Provide { size } => zeros_of(alloc, *size),
        Call::Pass | Call::Write { .. } | Call::FailedWrite { .. } | Call::FailedProvide { .. } =>
            stop_within(alloc, call, left, tear),
    }
}

// Does to what is held what this call did.
fn replay(alloc: Global, call: &Call, held: &mut Vec<u8>) -> Result<(), NoMemory>
    requires { FitsDisk call.now held.old.items }
    ensures { OnOk result (held.new.items ≡ held_by call.now held.old.items) }
{
    match call {
        Call::Write { at, bytes } => patch(held, *at, bytes),
        Call::Provide { size } => *held = zeros_of(alloc, *size)?,
        Call::Pass | Call::Sync | Call::FailedWrite { .. } | Call::FailedProvide { .. } => {}
    }
    Ok(())
}

// What a stop after these calls leaves of a disk that held this content at first.
fn stop_before(
    alloc: Global,
    entries: &[Entry],
    first: &[u8],
    tear: Tear,
) -> Result<Vec<u8>, NoMemory>
    requires { AreInside entries.now first.now }
    ensures left { IfOk result (λ image. left_after entries.now first.now (λ i. i ≡ first.now) image.items) }
    ensures long { IfOk result (λ image. length (held_after entries.now first.now) ≤ length image.items) }
    ensures image { IfOk result (λ image. image.items ≡ image_at tear entries.now (length entries.now) first.now first.now) }
{
    let mut held = copy_of(alloc, first)?;
    let mut left = copy_of(alloc, first)?;
    for entry in entries {
        left = stop_after(alloc, &entry.call, &held, left, tear)?;
        replay(alloc, &entry.call, &mut held)?;
    }
    Ok(left)
}

/// What a stop within the call of this number leaves of a disk that held this content at first.
pub fn stop_at(
    alloc: Global,
    entries: &[Entry],
    call: usize,
    first: &[u8],
    tear: Tear,
) -> Result<Vec<u8>, NoMemory>
    requires inside { AreInside entries.now first.now }
    requires made { call < length entries.now }
    ensures image { IfOk result (λ image. image.items ≡ image_at tear entries.now call first.now first.now) }
    ensures left { IfOk result (λ image. (e : Entry) → slice_get entries.now call ≡ Some e
        → left_within e.call (held_after (take call entries.now) first.now) (left_after (take call entries.now) first.now (λ i. i ≡ first.now)) image.items) }
{
    let left = stop_before(alloc, &entries[..call], first, tear)?;
    let image = stop_within(alloc, &entries[call].call, left, tear)?;
    Ok(image)
}
