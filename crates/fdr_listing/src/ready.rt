//! A row's line put together of texts that are ready.

ghost use Rattle.std.specs.Prelude.{◌≡◌, ◌+◌, ◌≤◌, ◌<◌, ◌^◌, ◌++◌, ℕ, codes, length, decimal, replicate, take};
ghost use Rattle.fdr_listing.specs.Text.{row_start_text, row_place_text, row_line_text, fraction_text, size_text, value_text};
ghost use Rattle.fdr_listing.specs.Numbers.{fraction_end};

use crate::numbers::NumberTexts;
use crate::text::{add_fraction, unit};
use fdr_io::OutBuffer;
use fdr_line::Line;
use fdr_recon::Row;
use fdr_table::Name;
use itoa::Buffer;
use std::marker::Model;

/// How many bytes a row's line takes at most, with what is copied beyond it.
pub const ROW_ROOM: usize = 96;

/// A text of at most eight bytes, which is made once and copied whole.
#[derive(Debug, Drop)]
pub struct ShortText {
    bytes: [u8; 8],
    len: usize,
}

impl Model for ShortText {
    ghost use Rattle.std.specs.Prelude.{ℕ, List, ◌≤◌, take};

    ghost Value = { List ℕ };

    ghost view = { λ s. take s.len s.bytes };

    ghost invariant = { λ s. s.len ≤ 8 };
}

impl ShortText {
    /// `row,COUNTER`, with which the lines of a frame's rows begin.
    #[tactic(auto, using(fdr_line::proofs::Lengths::numbers), unfolding(crate::specs::Text::row_start_text))]
    pub fn row_start(counter: u16) -> ShortText
        requires { counter < 4096 }
        ensures { result ≡ row_start_text counter }
    {
        let mut line = Line::new();
        line.add(b"row,");
        line.add_number(u64::from(counter));
        ShortText::of(&line)
    }

    /// `,SUBFRAME,WORD,`, which follows it.
    #[tactic(auto, using(fdr_line::proofs::Lengths::numbers), unfolding(crate::specs::Text::row_place_text))]
    pub fn row_place(subframe: u8, word: u32) -> ShortText
        requires subframe { subframe ≤ 4 }
        requires word { word ≤ 1024 }
        ensures { result ≡ row_place_text subframe word }
    {
        let mut line = Line::new();
        line.add(b",");
        line.add_number(u64::from(subframe));
        line.add(b",");
        line.add_number(u64::from(word));
        line.add(b",");
        ShortText::of(&line)
    }

    /// The digits of a number.
    #[tactic(auto, using(fdr_line::proofs::Lengths::numbers))]
    pub(crate) fn number(n: u32) -> ShortText
        requires { n < 4096 }
        ensures { result ≡ decimal n }
    {
        let mut line = Line::new();
        line.add_number(u64::from(n));
        ShortText::of(&line)
    }

    /// A point and `digits` digits of `n`, or nothing where `digits` is 0, and the end of the line.
    #[tactic(auto, unfolding(crate::specs::Numbers::fraction_end))]
    pub(crate) fn fraction_end(n: u32, digits: u8) -> ShortText
        requires three_digits { digits ≤ 3 }
        requires below { n < 10 ^ digits }
        ensures { result ≡ fraction_end digits n }
    {
        let mut line = Line::new();
        add_fraction(&mut line, u64::from(n), digits);
        line.add(b"\n");
        ShortText::of(&line)
    }

    /// The text with bytes after it, and how many are its own.
    pub(crate) fn padded(&self) -> (&[u8; 8], usize)
        ensures text { take result.1 result.0.now ≡ self.now }
        ensures length { result.1 ≤ 8 }
    {
        (&self.bytes, self.len)
    }

    fn of(line: &Line) -> ShortText
        requires { length line.now ≤ 8 }
        ensures { result ≡ line.now }
    {
        let text = line.bytes();
        let mut bytes = [0; 8];
        bytes[..text.len()].copy_from_slice(text);
        ShortText {
            bytes,
            len: text.len(),
        }
    }
}

/// Puts a whole number.
pub(crate) fn put_number(buffer: &mut OutBuffer, n: u64)
    requires { length buffer.old + 20 ≤ 65536 }
    ensures appended { buffer.new ≡ buffer.old ++ decimal n }
    ensures length { length buffer.new ≤ length buffer.old + 20 }
{
    let mut digits = Buffer::new();
    buffer.put_all(digits.format(n).as_bytes());
}

/// Puts this many zeros.
fn put_zeros(buffer: &mut OutBuffer, zeros: usize)
    requires room { length buffer.old + 9 ≤ 65536 }
    requires nine_zeros { zeros ≤ 9 }
    ensures appended { buffer.new ≡ buffer.old ++ replicate zeros 48 }
    ensures length { length buffer.new ≡ length buffer.old + zeros }
{
    buffer.put(b"000000000", zeros);
}

/// Puts a point and exactly `decimals` digits, or nothing where there are no decimals.
#[tactic(auto, unfolding(crate::specs::Text::fraction_text))]
fn put_fraction(buffer: &mut OutBuffer, n: u64, decimals: u8)
    requires room { length buffer.old + 40 ≤ 65536 }
    requires nine_decimals { decimals ≤ 9 }
    requires below { n < 10 ^ decimals }
    ensures appended { buffer.new ≡ buffer.old ++ fraction_text n decimals }
    ensures length { length buffer.new ≤ length buffer.old + 10 }
{
    if decimals == 0 {
        return;
    }
    let mut digits = Buffer::new();
    let digits = digits.format(n).as_bytes();
    let zeros = usize::from(decimals) - digits.len();
    buffer.put(b".", 1);
    put_zeros(buffer, zeros);
    buffer.put_all(digits);
}

/// Puts the size of a value in units of `10^-decimals`.
#[tactic(auto, using(fdr_line::proofs::Lengths::numbers), unfolding(crate::specs::Text::size_text))]
pub(crate) fn put_long_size(buffer: &mut OutBuffer, size: u64, decimals: u8)
    requires room { length buffer.old + 60 ≤ 65536 }
    requires nine_decimals { decimals ≤ 9 }
    ensures appended { buffer.new ≡ buffer.old ++ size_text size decimals }
    ensures length { length buffer.new ≤ length buffer.old + 30 }
{
    let unit = unit(decimals);
    put_number(buffer, size / unit);
    put_fraction(buffer, size % unit, decimals);
}

/// Puts a comma and a value in units of `10^-decimals`, and ends the line.
#[tactic(auto, unfolding(crate::specs::Text::value_text))]
fn put_value_end(buffer: &mut OutBuffer, numbers: &NumberTexts, v: i64, decimals: u8)
    requires room { length buffer.old + 63 ≤ 65536 }
    requires nine_decimals { decimals ≤ 9 }
    ensures { buffer.new ≡ buffer.old ++ codes "," ++ value_text v decimals ++ codes "\n" }
{
    let marks = if v < 0 { 2 } else { 1 };
    let size = v.unsigned_abs();
    match numbers.size_texts(size, decimals) {
        Some((whole, end)) => buffer.put_three((b",-", marks), whole.padded(), end.padded()),
        None => {
            buffer.put(b",-", marks);
            put_long_size(buffer, size, decimals);
            buffer.put(b"\n", 1);
        }
    }
}

/// Puts the line of a row: what it begins with, its place, the parameter's name and its value. There must be room for
/// `ROW_ROOM` bytes.
#[tactic(auto, unfolding(crate::specs::Text::row_line_text))]
pub fn put_row(
    buffer: &mut OutBuffer,
    numbers: &NumberTexts,
    start: &ShortText,
    place: &ShortText,
    name: &Name,
    row: &Row,
    decimals: u8,
)
    requires room { length buffer.old + 96 ≤ 65536 }
    requires nine_decimals { decimals ≤ 9 }
    ensures { buffer.new ≡ buffer.old ++ row_line_text start.now place.now name.now row.now.value decimals }
{
    buffer.put_three(start.padded(), place.padded(), name.padded());
    put_value_end(buffer, numbers, row.value, decimals);
}
