//! The words after the name of the program that records on two disks.

ghost use Rattle.std.specs.Prelude.{◌≡◌, ◌↔◌, None, Err, IfOk, IfSome, false, map, string_bytes};
ghost use Rattle.fdr_words.specs.Words.{is_plain};
ghost use Rattle.fdr_pair.specs.PairWords.{fits_pair_form, pair_words};
ghost use Rattle.fdr_pair.specs.declared.words.PairWordsFault.TheVariants as fault;

use fdr_table::{NoMemory, PathText};
use std::alloc::Global;

/// What the words ask for: to record a trace in two images, by a table.
#[derive(Debug, Drop)]
pub struct PairRequest {
    /// The path of the table.
    pub table: PathText,
    /// The path of the first image.
    pub first: PathText,
    /// The path of the second image.
    pub second: PathText,
}

/// Why the words make no request.
#[derive(Clone, Copy, Debug, PartialEq, Eq)]
pub enum PairWordsFault {
    /// The words aren't those of the one form.
    Usage,
    /// There wasn't enough memory.
    NoMemory,
}

impl From<NoMemory> for PairWordsFault {
    ghost use Rattle.std.specs.Prelude.{◌≡◌};
    ghost use Rattle.fdr_pair.specs.declared.words.PairWordsFault.TheVariants as fault;

    ghost from_gives = { λ _ result. result ≡ fault.NoMemory };

    fn from(_error: NoMemory) -> PairWordsFault {
        PairWordsFault::NoMemory
    }
}

/// Whether a word is neither empty nor one that begins with `-`.
fn is_plain(word: &str) -> bool
    ensures { result ≡ is_plain word.now }
{
    match word.as_bytes() {
        [] => false,
        [byte, ..] => *byte != b'-',
    }
}

/// The paths of a request.
#[derive(Clone, Copy)]
struct Paths<'a> {
    table: &'a str,
    first: &'a str,
    second: &'a str,
}

/// The paths in words of the one form, `record TABLE FIRST SECOND`, which has no options.
fn paths_of(words: &[String]) -> Option<Paths<'_>>
    ensures none { (result ≡ None) ↔ (fits_pair_form (map string_bytes words.now) ≡ false) }
    ensures form { IfSome result (λ p. map string_bytes words.now ≡ pair_words p.table.now p.first.now p.second.now) }
{
    let [command, table, first, second] = words else {
        return None;
    };
    let (table, first, second) = (table.as_str(), first.as_str(), second.as_str());
    if command.as_str() != "record" || !is_plain(table) || !is_plain(first) || !is_plain(second) {
        return None;
    }
    Some(Paths {
        table,
        first,
        second,
    })
}

/// The request of the words after the program's name.
pub fn read_pair_words(alloc: Global, words: &[String]) -> Result<PairRequest, PairWordsFault>
    ensures usage { (result ≡ Err fault.Usage) ↔ (fits_pair_form (map string_bytes words.now) ≡ false) }
    ensures form { IfOk result (λ request. map string_bytes words.now ≡ pair_words request.table request.first request.second) }
{
    let Some(paths) = paths_of(words) else {
        return Err(PairWordsFault::Usage);
    };
    Ok(PairRequest {
        table: PathText::new(alloc, paths.table)?,
        first: PathText::new(alloc, paths.first)?,
        second: PathText::new(alloc, paths.second)?,
    })
}
