//! The header of an image.

ghost use Rattle.std.specs.Prelude.{◌≡◌, ◌≢◌, ◌≤◌, ◌<◌, ◌↔◌, ℕ, true, false, Err, Some, None, IsTrue, IsOk, IfOk, IfErr, slice_index};
ghost use Rattle.fdr_slot.specs.Headers.{header_of, header_bytes, has_magic, image_fault};
ghost use Rattle.fdr_slot.specs.Limits.{IsInLimits};
ghost use Rattle.fdr_slot.specs.Limits as limits;
ghost use Rattle.fdr_slot.specs.Places as places;
ghost use Rattle.fdr_slot.specs.declared.image.ImageFault.TheVariants as fault;

use crate::{MAX_PAYLOAD, MAX_SLOTS, MIN_PAYLOAD, MIN_SLOTS, OPEN, image_size};
use byteorder::{BigEndian, ByteOrder};

/// What a header says of its image.
#[derive(Clone, Copy, PartialEq, Eq, Debug)]
pub struct Header {
    /// The number of slots, 4 to 65,536.
    pub slots: u32,
    /// The most bytes of a block, 64 to 4,096.
    pub payload: u32,
    /// The words in a subframe of what is recorded: 64, 128, 256, 512 or 1024.
    pub words: u32,
    /// The version of the format, 1 or 2. In version 2 each block has its session.
    pub version: u8,
}

/// Why bytes aren't an image. Of several the first is named.
#[derive(Clone, Copy, PartialEq, Eq, Debug)]
pub enum ImageFault {
    /// There are fewer bytes than a header has.
    Small,
    /// The header's gate is closed.
    Closed,
    /// It doesn't say that it is an image.
    Magic,
    /// A number of the header is outside its limits.
    Geometry,
    /// There are fewer bytes than its slots need.
    Short,
}

const MAGIC: [u8; 6] = *b"FDR717";

/// The byte that stands for version 2.
const SECOND: u8 = 0xa5;

/// Whether the numbers of a header are within their limits.
pub fn in_limits(h: &Header) -> bool
    ensures within { IsTrue result ↔ IsInLimits h.now }
    ensures value { result ≡ limits.in_limits h.now }
{
    (MIN_SLOTS..=MAX_SLOTS).contains(&h.slots)
        && (MIN_PAYLOAD..=MAX_PAYLOAD as u32).contains(&h.payload)
        && matches!(h.words, 64 | 128 | 256 | 512 | 1024)
        && (1..=2).contains(&h.version)
}

/// What the bytes of a header say.
#[tactic(auto, unfolding(crate::specs::Headers::header_of))]
fn header_in(bytes: &[u8; 64]) -> Header
    ensures { result ≡ header_of bytes.now }
{
    Header {
        slots: BigEndian::read_u32(&bytes[8..]),
        payload: BigEndian::read_u32(&bytes[12..]),
        words: BigEndian::read_u32(&bytes[16..]),
        version: if bytes[1] == SECOND { 2 } else { 1 },
    }
}

/// Whether the bytes say that they are an image.
#[tactic(auto, unfolding(crate::specs::Headers::has_magic))]
fn is_named(bytes: &[u8; 64]) -> bool
    ensures { result ≡ has_magic bytes.now }
{
    bytes[2..].starts_with(&MAGIC)
}

/// Reads the header of an image of `size` bytes. The image may be longer than its slots need.
///
/// `Small` is a fault of images without a whole header, and never of one that has it.
#[tactic(auto, using(crate::proofs::HeaderLemmas::image_faults))]
pub fn read_header(bytes: &[u8; 64], size: u64) -> Result<Header, ImageFault>
    requires { 64 ≤ size }
    ensures read { IfOk result (λ h. h ≡ header_of bytes.now) }
    ensures limits { IfOk result IsInLimits }
    ensures whole { IfOk result (λ h. places.image_size h ≤ size) }
    ensures good { IsOk result ↔ (image_fault bytes.now size ≡ None) }
    ensures first_fault { IfErr result (λ why. image_fault bytes.now size ≡ Some why) }

    ensures closed { (result ≡ Err fault.Closed) ↔ (slice_index bytes.now 0 ≢ 0x5a) }
    ensures magic { (result ≡ Err fault.Magic)
        ↔ ((slice_index bytes.now 0 ≡ 0x5a) × (has_magic bytes.now ≡ false)) }
    ensures geometry { (result ≡ Err fault.Geometry)
        ↔ ((slice_index bytes.now 0 ≡ 0x5a) × (has_magic bytes.now ≡ true) × ¬ IsInLimits (header_of bytes.now)) }
    ensures short { (result ≡ Err fault.Short)
        ↔ ((slice_index bytes.now 0 ≡ 0x5a) × (has_magic bytes.now ≡ true) × IsInLimits (header_of bytes.now)
        × (size < places.image_size (header_of bytes.now))) }
{
    if bytes[0] != OPEN {
        return Err(ImageFault::Closed);
    }
    if !is_named(bytes) {
        return Err(ImageFault::Magic);
    }
    let header = header_in(bytes);
    if !in_limits(&header) {
        return Err(ImageFault::Geometry);
    }
    if size < image_size(&header) {
        return Err(ImageFault::Short);
    }
    Ok(header)
}

/// The bytes of a header, with the gate open.
pub fn write_header(h: &Header) -> [u8; 64]
    requires { IsInLimits h.now }
    ensures bytes { result ≡ header_bytes h.now }
    ensures reads_back { header_of result ≡ h.now }
    ensures no_fault { (size : ℕ) → places.image_size h.now ≤ size → image_fault result size ≡ None }
{
    let mut bytes = [0; 64];
    bytes[0] = OPEN;
    bytes[1] = if h.version == 2 { SECOND } else { 0 };
    bytes[2..8].copy_from_slice(&MAGIC);
    BigEndian::write_u32(&mut bytes[8..], h.slots);
    BigEndian::write_u32(&mut bytes[12..], h.payload);
    BigEndian::write_u32(&mut bytes[16..], h.words);
    bytes
}
