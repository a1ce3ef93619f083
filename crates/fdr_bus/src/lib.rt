//! Records of a trace of ARINC 429 words, and the fields of such a word.
//!
//! A trace is a list of records of 16 bytes, each with the time at which it came, up to an end record.
#![tactic(auto)]

mod law;

ghost use Rattle.std.specs.Prelude.{◌≡◌, ◌≤◌, ◌<◌, ◌+◌, ◌^◌, ◌↔◌, ℕ, true, false, List, [], ◌∷◌, ◌++◌, length, Err, IsTrue, IsNone, IsOk, IfSome, IfOk, IfErr, MatchResult, Some};
ghost use Rattle.fdr_bus.specs.Records.{AwaitsRecord, IsGoodPrefix, good_prefix, has_kind, is_good, last_time, record_fault, record_of, trace_fault};
ghost use Rattle.fdr_bus.specs.Words.{bits_at, label_of, sdi_of};
ghost use Rattle.fdr_bus.specs.Words as words;
ghost use Rattle.fdr_bus.specs.declared.TraceFault.TheVariants as fault;

use byteorder::{BigEndian, ByteOrder};
pub use law::{
    decided_stays, fault_is_after_the_good_records, good_prefix_is_longest,
    label_has_the_first_bits,
};

/// The latest time that a record may have, in microseconds from the start of the recording.
const MAX_TIME: u64 = 1_440_000_000_000;

/// What a record of a trace is.
#[derive(Clone, Copy, PartialEq, Eq, Debug)]
pub enum RecordKind {
    /// A word that came on a bus.
    Word,
    /// The end of the recording.
    End,
}

/// A record of a trace.
#[derive(Clone, Copy, PartialEq, Eq, Debug)]
pub struct BusRecord {
    /// Whether it is a word or the end.
    pub kind: RecordKind,
    /// The number of the bus.
    pub bus: u8,
    /// The ARINC 429 word, whose bit 1 is the least significant. It isn't used in an end record.
    pub word: u32,
    /// Microseconds from the start of the recording.
    pub time: u64,
}

/// Why a trace isn't good from a record on.
#[derive(Clone, Copy, PartialEq, Eq, Debug)]
pub enum TraceFault {
    /// The record is neither a word nor the end.
    Kind,
    /// Its time is below that of the record before.
    Back,
    /// Its time is over 1,440,000,000,000 microseconds.
    Late,
    /// The trace stops before an end record.
    Truncated,
    /// There are 2^32 good records and no end record among them.
    Many,
}

/// The record that the bytes hold, or `None` where their first byte isn't a kind of record.
fn record_in(bytes: &[u8; 16]) -> Option<BusRecord>
    ensures none { IsNone result ↔ (has_kind bytes.now ≡ false) }
    ensures read { IfSome result (λ r. (r ≡ record_of bytes.now) × (has_kind bytes.now ≡ true)) }
{
    let kind = match bytes[0] {
        1 => RecordKind::Word,
        2 => RecordKind::End,
        _ => return None,
    };
    Some(BusRecord {
        kind,
        bus: bytes[1],
        word: BigEndian::read_u32(&bytes[4..]),
        time: BigEndian::read_u64(&bytes[8..]),
    })
}

/// Reads a record that follows one of time `before`, which is 0 at the first.
///
/// `Truncated` and `Many` are faults of a whole trace, and never of one record.
#[tactic(auto, using(crate::proofs::ParseLemmas::record_tests))]
pub fn parse(bytes: &[u8; 16], before: u64) -> Result<BusRecord, TraceFault>
    ensures read { IfOk result (λ r. r ≡ record_of bytes.now) }
    ensures good { IsOk result ↔ (is_good before bytes.now ≡ true) }

    ensures kind { (result ≡ Err fault.Kind) ↔ (has_kind bytes.now ≡ false) }
    ensures back { (result ≡ Err fault.Back) ↔ ((has_kind bytes.now ≡ true) × ((record_of bytes.now).time < before)) }
    ensures late { (result ≡ Err fault.Late)
        ↔ ((has_kind bytes.now ≡ true) × (before ≤ (record_of bytes.now).time)
        × (last_time < (record_of bytes.now).time)) }
    ensures first_fault { IfErr result (λ why. record_fault before bytes.now ≡ Some why) }

    ensures next { (earlier : List ℕ) → AwaitsRecord earlier before
        → MatchResult result (λ r. IsGoodPrefix (earlier ++ bytes.now) (good_prefix earlier ++ r ∷ []))
        (λ why. IsGoodPrefix (earlier ++ bytes.now) (good_prefix earlier)) }
    ensures trace { (earlier : List ℕ) → AwaitsRecord earlier before
        → IfErr result (λ why. trace_fault (earlier ++ bytes.now) ≡ Some (length (good_prefix earlier), why)) }
{
    let Some(record) = record_in(bytes) else {
        return Err(TraceFault::Kind);
    };
    if record.time < before {
        return Err(TraceFault::Back);
    }
    if record.time > MAX_TIME {
        return Err(TraceFault::Late);
    }
    Ok(record)
}

/// The label, which is in bits 1 to 8 of an ARINC 429 word with its most significant bit in bit 1.
pub fn label(word: u32) -> u8
    ensures { result ≡ label_of word }
{
    ((word & 0xff) as u8).reverse_bits()
}

/// The source or destination identifier, in bits 9 and 10 of an ARINC 429 word. Bit 9 is its lower bit.
pub fn sdi(word: u32) -> u8
    ensures value { result ≡ sdi_of word }
    ensures two_bits { result < 4 }
{
    ((word >> 8) & 3) as u8
}

/// Whether an odd number of the 32 bits are 1, as they are in an ARINC 429 word that came undamaged.
pub fn is_odd(word: u32) -> bool
    ensures { IsTrue result ↔ IsTrue (words.is_odd word) }
{
    word.count_ones() % 2 == 1
}

/// The number in the `width` bits from bit `lsb` on, where bit 1 is the least significant.
pub fn field(word: u32, lsb: u8, width: u8) -> u32
    requires from_first { 1 ≤ lsb }
    requires some_bits { 1 ≤ width }
    requires within { lsb + width ≤ 33 }
    ensures value { result ≡ bits_at word lsb width }
    ensures fits { result < 2 ^ width }
{
    (word >> (lsb - 1)) & (u32::MAX >> (32 - width))
}
