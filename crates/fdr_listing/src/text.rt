ghost use Rattle.std.specs.Prelude.{◌≡◌, ◌≤◌, ◌<◌, ◌++◌, ◌+◌, ◌^◌, ℕ, length, replicate};
ghost use Rattle.fdr_listing.specs.Text.{gap_text, row_text, size_text, fraction_text, value_text as value_bytes};

use fdr_line::Line;
use fdr_recon::Row;
use fdr_table::Name;

/// The line `gap,AT,BITS` of a gap that begins at bit `at` and has `bits` bits.
#[tactic(auto, using(fdr_line::proofs::Lengths::numbers), unfolding(crate::specs::Text::gap_text))]
pub fn gap_line(at: u64, bits: u64) -> Line
    ensures { result ≡ gap_text at bits }
{
    let mut line = Line::new();
    line.add(b"gap,");
    line.add_number(at);
    line.add(b",");
    line.add_number(bits);
    line.add(b"\n");
    line
}

/// Ten to the power of the number of decimals.
pub(crate) fn unit(decimals: u8) -> u64
    requires { decimals ≤ 9 }
    ensures power { result ≡ 10 ^ decimals }
    ensures low { 1 ≤ result }
    ensures high { result ≤ 1000000000 }
{
    10u64.pow(u32::from(decimals))
}

/// Adds this many zeros.
fn add_zeros(line: &mut Line, zeros: usize)
    requires room { length line.old ≤ 81 }
    requires nine_zeros { zeros ≤ 9 }
    ensures appended { line.new ≡ line.old ++ replicate zeros 48 }
    ensures length { length line.new ≡ length line.old + zeros }
{
    line.add(&b"000000000"[..zeros]);
}

/// Adds a point and exactly `decimals` digits, or nothing where there are no decimals.
#[tactic(auto, unfolding(crate::specs::Text::fraction_text))]
pub(crate) fn add_fraction(line: &mut Line, n: u64, decimals: u8)
    requires room { length line.old ≤ 80 }
    requires nine_decimals { decimals ≤ 9 }
    requires below { n < 10 ^ decimals }
    ensures appended { line.new ≡ line.old ++ fraction_text n decimals }
    ensures length { length line.new ≤ length line.old + 1 + decimals }
{
    if decimals == 0 {
        return;
    }
    let mut digits = Line::new();
    digits.add_number(n);
    let zeros = usize::from(decimals) - digits.bytes().len();
    line.add(b".");
    add_zeros(line, zeros);
    line.add(digits.bytes());
}

/// Adds the size of a value in units of `10^-decimals`.
#[tactic(auto, using(fdr_line::proofs::Lengths::numbers), unfolding(crate::specs::Text::size_text))]
fn add_size(line: &mut Line, size: u64, decimals: u8)
    requires room { length line.old ≤ 60 }
    requires nine_decimals { decimals ≤ 9 }
    ensures appended { line.new ≡ line.old ++ size_text size decimals }
    ensures length { length line.new ≤ length line.old + 30 }
{
    let unit = unit(decimals);
    line.add_number(size / unit);
    add_fraction(line, size % unit, decimals);
}

/// A value in units of `10^-decimals`, with a point and exactly `decimals` digits where that isn't 0.
#[tactic(auto, unfolding(crate::specs::Text::value_text))]
pub fn value_text(v: i64, decimals: u8) -> Line
    requires { decimals ≤ 9 }
    ensures text { result ≡ value_bytes v decimals }
    ensures short { length result ≤ 31 }
{
    let mut line = Line::new();
    if v < 0 {
        line.add(b"-");
    }
    add_size(&mut line, v.unsigned_abs(), decimals);
    line
}

/// The line `row,COUNTER,SUBFRAME,WORD,NAME,VALUE` of a row of the parameter with this name and number of decimals.
#[tactic(auto, using(fdr_line::proofs::Lengths::numbers), unfolding(crate::specs::Text::row_text))]
pub fn row_line(r: &Row, name: &Name, decimals: u8) -> Line
    requires nine_decimals { decimals ≤ 9 }
    requires counter { r.now.counter < 4096 }
    requires subframe { r.now.subframe ≤ 4 }
    requires word { r.now.word ≤ 1024 }
    ensures { result ≡ row_text r.now name.now decimals }
{
    let mut line = Line::new();
    line.add(b"row,");
    line.add_number(u64::from(r.counter));
    line.add(b",");
    line.add_number(u64::from(r.subframe));
    line.add(b",");
    line.add_number(u64::from(r.word));
    line.add(b",");
    line.add(name.bytes());
    line.add(b",");
    line.add(value_text(r.value, decimals).bytes());
    line.add(b"\n");
    line
}
