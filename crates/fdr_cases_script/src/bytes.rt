//! Bytes as a script says them: tokens, of which each adds bytes to those before it or changes them.

use crate::files::Files;
use crate::wrong::Wrong;
use std::alloc::Global;

/// The bytes that these tokens make, where `N` is this number.
pub fn bytes_of(alloc: Global, files: &Files, tokens: &str, n: u64) -> Result<Vec<u8>, Wrong> {
    let mut bytes = Vec::new(alloc);
    for token in tokens.split_whitespace() {
        add(files, &mut bytes, token, n)?;
    }
    Ok(bytes)
}

/// Does what a token says.
fn add(files: &Files, bytes: &mut Vec<u8>, token: &str, n: u64) -> Result<(), Wrong> {
    if let Some(name) = token.strip_prefix("@") {
        return add_named(files, bytes, name, n);
    }
    if let Some((key, name)) = token.split_once("=@") {
        return copy_each(bytes, part_named(files, name, n)?, key, n);
    }
    if let Some((key, value)) = token.split_once("=") {
        return change(bytes, key, value, n);
    }
    if let Some((bit, word)) = token.split_once(":") {
        return put_word(bytes, place_of(bit, n)?, word);
    }
    if let Some((byte, times)) = token.split_once("*") {
        return repeat(bytes, byte, place_of(times, n)?);
    }
    let at = bytes.len();
    put_hex(bytes, at, token)
}

/// A decimal number.
pub fn number_of(text: &str) -> Result<u64, Wrong> {
    text.parse::<u64>().map_err(|_| Wrong::Line)
}

/// A decimal number, `N`, or `N+` and a decimal number.
pub fn number_with(text: &str, n: u64) -> Result<u64, Wrong> {
    if text == "N" {
        return Ok(n);
    }
    match text.strip_prefix("N+") {
        Some(more) => Ok(n.saturating_add(number_of(more)?)),
        None => number_of(text),
    }
}

/// A place or a count.
fn place_of(text: &str, n: u64) -> Result<usize, Wrong> {
    usize::try_from(number_with(text, n)?).map_err(|_| Wrong::Line)
}

/// `NAME`, or `NAME[FROM..TO]` for a part: adds bytes that have a name.
fn add_named(files: &Files, bytes: &mut Vec<u8>, name: &str, n: u64) -> Result<(), Wrong> {
    Ok(bytes.extend_from_slice(part_named(files, name, n)?)?)
}

/// The bytes of `NAME`, or of `NAME[FROM..TO]`.
fn part_named<'a>(files: &'a Files, name: &str, n: u64) -> Result<&'a [u8], Wrong> {
    let part = match name.split_once("[") {
        None => files.get(name),
        Some((name, part)) => part_of(files.get(name), part, n),
    };
    part.ok_or(Wrong::Line)
}

/// `FROM..TO]` of these bytes.
fn part_of<'a>(whole: Option<&'a [u8]>, part: &str, n: u64) -> Option<&'a [u8]> {
    let (from, to) = part.strip_suffix("]")?.split_once("..")?;
    whole?.get(place_of(from, n).ok()?..place_of(to, n).ok()?)
}

/// The number that a hexadecimal digit is.
fn digit_of(letter: u8) -> Option<u8> {
    match letter {
        b'0'..=b'9' => Some(letter - b'0'),
        b'a'..=b'f' => Some(letter - b'a' + 10),
        _ => None,
    }
}

/// The byte of two hexadecimal digits.
fn byte_of(digits: &[u8]) -> Option<u8> {
    match digits {
        [high, low] => Some(
            digit_of(*high)?
                .wrapping_mul(16)
                .wrapping_add(digit_of(*low)?),
        ),
        _ => None,
    }
}

/// Puts these bytes, of two hexadecimal digits each, at a place: over others, or after the last.
fn put_hex(bytes: &mut Vec<u8>, at: usize, digits: &str) -> Result<(), Wrong> {
    if at > bytes.len() {
        return Err(Wrong::Line);
    }
    let mut at = at;
    for pair in digits.as_bytes().chunks(2) {
        let byte = byte_of(pair).ok_or(Wrong::Line)?;
        match bytes.get_mut(at) {
            Some(place) => *place = byte,
            None => bytes.push(byte).map_err(|_| Wrong::NoMemory)?,
        }
        at = at.saturating_add(1);
    }
    Ok(())
}

/// `PLACE/STEP=@NAME`: the byte at this place and each that is so many further become those of a name, as far as it has them.
fn copy_each(bytes: &mut Vec<u8>, from: &[u8], key: &str, n: u64) -> Result<(), Wrong> {
    let (first, step) = key.split_once("/").ok_or(Wrong::Line)?;
    let (first, step) = (place_of(first, n)?, place_of(step, n)?);
    for (at, (to, from)) in bytes.iter_mut().zip(from).enumerate() {
        if step > 0 && at >= first && (at - first) % step == 0 {
            *to = *from;
        }
    }
    Ok(())
}

/// `BYTE*TIMES`: adds a byte so many times.
fn repeat(bytes: &mut Vec<u8>, byte: &str, times: usize) -> Result<(), Wrong> {
    let byte = byte_of(byte.as_bytes()).ok_or(Wrong::Line)?;
    let length = bytes.len().saturating_add(times);
    Ok(bytes.resize(length, byte)?)
}

/// `PLACE=BYTES` puts bytes over others, `turn=BIT` turns a bit, `strike=BIT` strikes one out, `insert=BIT` puts a zero in before it,
/// and `size=COUNT` cuts or adds zeros.
fn change(bytes: &mut Vec<u8>, key: &str, value: &str, n: u64) -> Result<(), Wrong> {
    let length = bytes.len();
    match key {
        "turn" => turn(bytes, bit_of(length, value, n)?),
        "strike" => strike(bytes, bit_of(length, value, n)?),
        "insert" => insert(bytes, bit_of(length, value, n)?),
        "size" => bytes.resize(place_of(value, n)?, 0)?,
        _ => put_hex(bytes, place_of(key, n)?, value)?,
    }
    Ok(())
}

/// The place of a bit of so many bytes.
fn bit_of(length: usize, text: &str, n: u64) -> Result<usize, Wrong> {
    let bit = place_of(text, n)?;
    if bit / 8 < length {
        Ok(bit)
    } else {
        Err(Wrong::Line)
    }
}

fn bit_at(bytes: &[u8], at: usize) -> bool {
    bytes
        .get(at / 8)
        .is_some_and(|byte| byte >> (at % 8) & 1 == 1)
}

fn set_bit(bytes: &mut [u8], at: usize, one: bool) {
    if let Some(byte) = bytes.get_mut(at / 8) {
        let bit = 1 << (at % 8);
        *byte = if one { *byte | bit } else { *byte & !bit };
    }
}

fn turn(bytes: &mut [u8], at: usize) {
    let one = bit_at(bytes, at);
    set_bit(bytes, at, !one);
}

/// What comes after the bit is a bit earlier, and the last bit is zero.
fn strike(bytes: &mut [u8], bit: usize) {
    for at in bit..bytes.len().saturating_mul(8) {
        let one = bit_at(bytes, at.saturating_add(1));
        set_bit(bytes, at, one);
    }
}

/// What comes after the bit is a bit later, and the last bit goes.
fn insert(bytes: &mut [u8], bit: usize) {
    let mut before = false;
    for at in bit..bytes.len().saturating_mul(8) {
        let one = bit_at(bytes, at);
        set_bit(bytes, at, before);
        before = one;
    }
}

/// `BIT:WORD`: puts a word of 12 bits, the least significant first, at a bit over zeros.
fn put_word(bytes: &mut [u8], bit: usize, word: &str) -> Result<(), Wrong> {
    let word = u16::from_str_radix(word, 16).map_err(|_| Wrong::Line)?;
    if word > 0xfff || bit.saturating_add(11) / 8 >= bytes.len() {
        return Err(Wrong::Line);
    }
    for place in 0..12_usize {
        if word >> place & 1 == 1 {
            set_bit(bytes, bit.saturating_add(place), true);
        }
    }
    Ok(())
}
