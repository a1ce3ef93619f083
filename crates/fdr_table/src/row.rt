ghost use Rattle.std.specs.Prelude.{◌≡◌, ◌<◌, ◌≤◌, ◌^◌, ◌≤ℤ◌, neg_ℤ, pos, Some, None, IfOk, IfErr, IfSome, [], ◌∷◌};
ghost use Rattle.csv.specs.Records.{fields_of};
ghost use Rattle.fdr_table.specs.Fields.{number_in, signed_within};
ghost use Rattle.fdr_table.specs.Reading.{field, row_kind, first_some, frame_misread, frame_row, last_cycle, misnamed, param_misread, param_row, place_misread, place_row};
ghost use Rattle.fdr_table.specs.declared.row.RowKind.TheVariants as kind;
ghost use Rattle.fdr_table.specs.declared.fault.TableFault.TheVariants as fault;

use crate::fault::TableFault;
use crate::field;
use crate::frame::Frame;
use crate::name::Name;
use crate::param::Param;
use crate::place::Place;
use crate::sign::Sign;
use csv::ByteRecord;

/// What a row is for.
#[derive(Clone, Copy)]
pub(crate) enum RowKind {
    Frame,
    Param,
    Place,
}

/// In how many frames a place may come once.
pub(crate) const PERIODS: [u64; 5] = [1, 2, 4, 8, 16];

/// A field of a row, empty where the row has no such field.
#[tactic(auto, using(crate::proofs::RowFacts::fields))]
pub(crate) fn field_at(row: &ByteRecord, index: u8) -> &[u8]
    ensures { result.now ≡ field (fields_of row.now) index }
{
    match row.get(usize::from(index)) {
        Some(bytes) => bytes,
        None => &[],
    }
}

/// The decimal number in a field of a row, from `low` to `high`.
fn number_in(row: &ByteRecord, index: u8, low: u64, high: u64) -> Result<u64, TableFault>
    ensures read { IfOk result (λ n. number_in low high (field (fields_of row.now) index) ≡ Some n) }
    ensures within { IfOk result (λ n. (low ≤ n) × (n ≤ high)) }
    ensures misread { IfErr result (λ f. (number_in low high (field (fields_of row.now) index) ≡ None) × (f ≡ fault.Number index)) }
{
    field::number_in(field_at(row, index), low, high).ok_or(TableFault::Number { field: index })
}

/// The signed number in a field of a row, at most `most` in size.
fn signed_within(row: &ByteRecord, index: u8, most: u64) -> Result<i64, TableFault>
    requires { most < 2 ^ 63 }
    ensures read { IfOk result (λ n. signed_within most (field (fields_of row.now) index) ≡ Some n) }
    ensures low { IfOk result (λ n. neg_ℤ (pos most) ≤ℤ n) }
    ensures high { IfOk result (λ n. n ≤ℤ pos most) }
    ensures misread { IfErr result (λ f. (signed_within most (field (fields_of row.now) index) ≡ None) × (f ≡ fault.Number index)) }
{
    field::signed_within(field_at(row, index), most).ok_or(TableFault::Number { field: index })
}

/// The frame of a frame row.
#[tactic(auto, unfolding(crate::specs::Reading::frame_row, crate::specs::Reading::frame_misread))]
pub(crate) fn read_frame_row(row: &ByteRecord) -> Result<Frame, TableFault>
    requires { row_kind (fields_of row.now) ≡ Some kind.Frame }
    ensures read { IfOk result (λ frame. frame_row (fields_of row.now) ≡ Some frame) }
    ensures misread { IfErr result (λ f. frame_misread (fields_of row.now) ≡ Some f) }
{
    let words = field::word_count(field_at(row, 1)).ok_or(TableFault::Number { field: 1 })?;
    let cword = number_in(row, 2, 2, 1024)?;
    let csub = number_in(row, 3, 1, 4)?;
    Ok(Frame {
        words,
        cword: cword as u32,
        csub: csub as u8,
    })
}

/// The parameter of a parameter's row, which is row `number` of its table, or none where its name isn't one.
#[tactic(auto, unfolding(crate::specs::Reading::param_row, crate::specs::Reading::param_misread, crate::specs::Reading::misnamed))]
pub(crate) fn read_param_row(row: &ByteRecord, number: u32) -> Result<Option<Param>, TableFault>
    requires { row_kind (fields_of row.now) ≡ Some kind.Param }
    ensures read { IfOk result (λ param. param_row number (fields_of row.now) ≡ param) }
    ensures numbers { IfOk result (λ param. param_misread (fields_of row.now) ≡ None) }
    ensures misread { IfErr result (λ f. param_misread (fields_of row.now) ≡ Some f) }
{
    let bus = number_in(row, 2, 0, 255)?;
    let label = field::label(field_at(row, 3)).ok_or(TableFault::Number { field: 3 })?;
    let sdi = field::sdi(field_at(row, 4)).ok_or(TableFault::Number { field: 4 })?;
    let lsb = number_in(row, 5, 1, 32)?;
    let width = number_in(row, 6, 1, 33 - lsb)?;
    let sign = Sign::of(width, field_at(row, 7)).ok_or(TableFault::Number { field: 7 })?;
    let num = signed_within(row, 8, 1_000_000_000)?;
    let den = number_in(row, 9, 1, 1_000_000_000)?;
    let offset = signed_within(row, 10, 1_000_000_000_000_000)?;
    let decimals = number_in(row, 11, 0, 9)?;
    let rate = number_in(row, 12, 1, 262_144)?;
    let age = field::age(field_at(row, 13)).ok_or(TableFault::Number { field: 13 })?;
    let Some(name) = Name::new(field_at(row, 1)) else {
        return Ok(None);
    };
    Ok(Some(Param {
        name,
        bus: bus as u8,
        label,
        sdi,
        lsb: lsb as u8,
        width: width as u8,
        signed: sign.is_signed(),
        num,
        den: den as i64,
        offset,
        decimals: decimals as u8,
        rate: rate as u32,
        age,
        tells: sign.is_telling(),
        row: number,
    }))
}

/// The highest cycle of a place: below its period, or 15 where the period doesn't read.
fn last_cycle(period: Option<u64>) -> u64
    requires { IfSome period (λ n. 1 ≤ n) }
    ensures { result ≡ last_cycle period }
{
    match period {
        Some(period) => period - 1,
        None => 15,
    }
}

/// The place of a place's row, which is row `number` of its table, of the parameter with index `param`.
#[tactic(auto, unfolding(crate::specs::Reading::place_row, crate::specs::Reading::place_misread))]
pub(crate) fn read_place_row(row: &ByteRecord, param: u32, number: u32) -> Result<Place, TableFault>
    requires { row_kind (fields_of row.now) ≡ Some kind.Place }
    ensures read { IfOk result (λ place. place_row param number (fields_of row.now) ≡ Some place) }
    ensures misread { IfErr result (λ f. place_misread (fields_of row.now) ≡ Some f) }
{
    let part = number_in(row, 2, 1, 4)?;
    let subs = field::subframes(field_at(row, 3)).ok_or(TableFault::Number { field: 3 })?;
    let word = number_in(row, 4, 1, 1024)?;
    let step = number_in(row, 5, 0, 1024)?;
    let lsb = number_in(row, 6, 1, 12)?;
    let width = number_in(row, 7, 1, 13 - lsb)?;
    let periods = field::number_of(field_at(row, 9), &PERIODS);
    let cycle = number_in(row, 8, 0, last_cycle(periods))?;
    let period = periods.ok_or(TableFault::Number { field: 9 })?;
    Ok(Place {
        param,
        part: part as u8,
        subs,
        word: word as u32,
        step: step as u32,
        lsb: lsb as u8,
        width: width as u8,
        cycle: cycle as u8,
        period: period as u8,
        row: number,
    })
}

/// What a row is for, by its letter and its count of fields.
#[tactic(auto, unfolding(crate::specs::Reading::row_kind))]
pub(crate) fn kind_of(row: &ByteRecord) -> Option<RowKind>
    ensures { result ≡ row_kind (fields_of row.now) }
{
    let letter = field_at(row, 0);
    let count = row.len();
    if letter == b"F".as_slice() && count == 4 {
        Some(RowKind::Frame)
    } else if letter == b"P".as_slice() && (count == 13 || count == 14) {
        Some(RowKind::Param)
    } else if letter == b"L".as_slice() && count == 10 {
        Some(RowKind::Place)
    } else {
        None
    }
}
