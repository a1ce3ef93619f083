ghost use Rattle.std.specs.Prelude.{◌≡◌, ◌<◌, ◌≤◌, ◌^◌, ◌≤ℤ◌, neg_ℤ, pos, IsTrue, IfSome, length, ◌&&◌, nat_le, true};
ghost use Rattle.std.specs.List.{list_all};
ghost use Rattle.std.specs.Option.{option_map_or};
ghost use Rattle.std.specs.Str.Parse.{digits_value};
ghost use Rattle.fdr_frame.specs.WordCount.{is_word_count, IsWordCount};
ghost use Rattle.fdr_table.specs.Bounds.{most_sdi, most_age};
ghost use Rattle.fdr_table.specs.Fields.{is_digit, is_octal_digit, decimal_of, number_in, number_among, word_count_of, is_among, signed_within, label_field, sdi_field, is_subframe_digit, subframe_bit, subframes_of, age_field};

/// The number that digits write to a base.
fn value(digits: &[u8], base: u64) -> u64
    requires base { 1 ≤ base }
    requires digits { IsTrue (list_all is_digit digits.now) }
    requires fits { digits_value base digits.now < 2 ^ 64 }
    ensures { result ≡ digits_value base digits.now }
{
    let mut value = 0;
    for digit in digits {
        value = value * base + u64::from(*digit - b'0');
    }
    value
}

/// Whether each byte is a decimal digit.
fn are_digits(field: &[u8]) -> bool
    ensures { result ≡ list_all is_digit field.now }
{
    field.iter().all(|byte| byte.is_ascii_digit())
}

/// Whether each byte is an octal digit.
fn are_octal_digits(field: &[u8]) -> bool
    ensures { result ≡ list_all is_octal_digit field.now }
{
    field.iter().all(|byte| b'0' <= *byte && *byte <= b'7')
}

/// A decimal number of 1 to 19 digits.
#[tactic(auto, using(crate::proofs::FieldFacts::decimals))]
fn decimal(field: &[u8]) -> Option<u64>
    ensures { result ≡ decimal_of field.now }
{
    if field.is_empty() || 19 < field.len() || !are_digits(field) {
        return None;
    }
    Some(value(field, 10))
}

/// A decimal number of 1 to 19 digits, leading zeros allowed, from `low` to `high`. Takes no memory.
#[tactic(auto, unfolding(crate::specs::Fields::number_in))]
pub fn number_in(field: &[u8], low: u64, high: u64) -> Option<u64>
    ensures exactly { result ≡ number_in low high field.now }
    ensures within { IfSome result (λ n. (low ≤ n) × (n ≤ high)) }
{
    let number = decimal(field)?;
    if low <= number && number <= high {
        Some(number)
    } else {
        None
    }
}

/// Whether a number is one of `allowed`.
fn is_among(allowed: &[u64], number: u64) -> bool
    ensures { result ≡ is_among allowed.now number }
{
    allowed.iter().any(|other| *other == number)
}

/// A decimal number that is one of `allowed`.
#[tactic(auto, unfolding(crate::specs::Fields::number_among))]
pub(crate) fn number_of(field: &[u8], allowed: &[u64]) -> Option<u64>
    ensures exactly { result ≡ number_among allowed.now field.now }
    ensures among { IfSome result (λ n. IsTrue (is_among allowed.now n)) }
{
    let number = decimal(field)?;
    if is_among(allowed, number) {
        Some(number)
    } else {
        None
    }
}

/// Whether a subframe may have `number` words.
fn is_word_count(number: u64) -> bool
    ensures { result ≡ is_word_count number }
{
    matches!(number, 64 | 128 | 256 | 512 | 1024)
}

/// A number of words in a subframe: 64, 128, 256, 512 or 1024.
#[tactic(auto, unfolding(crate::specs::Fields::word_count_of), using(fdr_frame::proofs::WordCounts::word_count_bounds))]
pub(crate) fn word_count(field: &[u8]) -> Option<u32>
    ensures exactly { result ≡ word_count_of field.now }
    ensures allowed { IfSome result IsWordCount }
{
    let number = decimal(field)?;
    if is_word_count(number) {
        Some(number as u32)
    } else {
        None
    }
}

/// A decimal number of at most `most` in size, with a `-` in front or none.
#[tactic(auto, unfolding(crate::specs::Fields::signed_within))]
pub(crate) fn signed_within(field: &[u8], most: u64) -> Option<i64>
    requires { most < 2 ^ 63 }
    ensures exactly { result ≡ signed_within most field.now }
    ensures low { IfSome result (λ n. neg_ℤ (pos most) ≤ℤ n) }
    ensures high { IfSome result (λ n. n ≤ℤ pos most) }
{
    match field {
        [b'-', digits @ ..] => Some(-(number_in(digits, 0, most)? as i64)),
        _ => Some(number_in(field, 0, most)? as i64),
    }
}

/// A label of 1 to 3 octal digits, 0 to 377.
#[tactic(auto, using(crate::proofs::FieldFacts::labels))]
pub(crate) fn label(field: &[u8]) -> Option<u8>
    ensures { result ≡ label_field field.now }
{
    if field.is_empty() || 3 < field.len() || !are_octal_digits(field) {
        return None;
    }
    let label = value(field, 8);
    if label <= 255 {
        Some(label as u8)
    } else {
        None
    }
}

/// An SDI from 0 to 3, or any where the field is empty.
#[tactic(auto, unfolding(crate::specs::Fields::sdi_field))]
pub(crate) fn sdi(field: &[u8]) -> Option<Option<u8>>
    ensures exactly { result ≡ sdi_field field.now }
    ensures within { IfSome result (λ sdi. IsTrue (option_map_or (λ n. nat_le n most_sdi) sdi true)) }
{
    if field.is_empty() {
        return Some(None);
    }
    let sdi = number_in(field, 0, 3)?;
    Some(Some(sdi as u8))
}

/// The bit of the subframe with this digit.
fn subframe_bit(digit: u8) -> u8
    requires low { 49 ≤ digit }
    requires high { digit ≤ 52 }
    ensures { result ≡ subframe_bit digit }
{
    1 << (digit - b'1')
}

/// A set of subframes, as a bit for each: 1 to 4 increasing digits out of 1, 2, 3 and 4.
pub(crate) fn subframes(field: &[u8]) -> Option<u8>
    ensures exactly { result ≡ subframes_of field.now }
    ensures within { IfSome result (λ set. (1 ≤ set) × (set ≤ 15)) }
{
    if field.is_empty() {
        return None;
    }
    let mut last = b'0';
    let mut set = 0;
    for digit in field {
        if *digit <= last || b'4' < *digit {
            return None;
        }
        set += subframe_bit(*digit);
        last = *digit;
    }
    Some(set)
}

/// An age from 1 to 64,000,000 microseconds, or any where the field is empty.
#[tactic(auto, unfolding(crate::specs::Fields::age_field))]
pub(crate) fn age(field: &[u8]) -> Option<Option<u64>>
    ensures exactly { result ≡ age_field field.now }
    ensures within { IfSome result (λ age. IsTrue (option_map_or (λ n. nat_le 1 n && nat_le n most_age) age true)) }
{
    if field.is_empty() {
        return Some(None);
    }
    let age = number_in(field, 1, 64_000_000)?;
    Some(Some(age))
}
