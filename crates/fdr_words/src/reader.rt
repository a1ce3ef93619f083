//! The arguments as `clap` reads them: one command of three plain arguments and four options.

ghost use Rattle.std.specs.Prelude.{◌≡◌, ◌∷◌, [], None, Some, Err, IfOk, false, map, string_bytes};
ghost use Rattle.std.specs.List.{cons_option, list_all};
ghost use Rattle.std.specs.Option.{option_map};
ghost use Rattle.clap.specs.Words.{FailsBy, app_of, first_of, found_of, rows_of, rule_of};
ghost use Rattle.fdr_words.specs.Reader.{are_known, has_meaning, long_option, reader, reader_faults, reader_rows, uses_in};
ghost use Rattle.fdr_words.specs.Views.{plain_view, uses_view};
ghost use Rattle.fdr_words.specs.Words.{uses_of, word_meaning};
ghost use Rattle.fdr_words.specs.declared.WordsFault.TheVariants as fault;

use crate::WordsFault;
use crate::uses::{PlainWords, Uses, Word, word_of};
use clap::error::ErrorKind;
use clap::{Arg, ArgMatches, Command, Error};
use std::alloc::{AllocError, Global};

/// An option that takes one value.
fn option<'a>(alloc: Global, name: &'a str) -> Arg<'a>
    ensures rule { rule_of result ≡ long_option name.entry.now }
    ensures own { result.global ≡ false }
{
    Arg::new(alloc, name).long(name)
}

/// The command that the arguments are read as, with no flags of `clap`'s own.
fn command<'a>(alloc: Global) -> Result<Command<'a>, AllocError>
    ensures { IfOk result (λ c. app_of c ≡ reader) }
{
    Command::new(alloc, "fdr")
        .no_binary_name(true)
        .disable_help_flag(true)
        .disable_version_flag(true)
        .arg(Arg::new(alloc, "command"))?
        .arg(Arg::new(alloc, "path"))?
        .arg(Arg::new(alloc, "image"))?
        .arg(option(alloc, "slots"))?
        .arg(option(alloc, "payload"))?
        .arg(option(alloc, "seed"))?
        .arg(option(alloc, "frames"))
}

/// What `clap` finds in the arguments.
fn matches<'a>(alloc: Global, args: &'a [String]) -> Result<ArgMatches<'a>, Error>
    ensures faults { FailsBy (reader_faults (map string_bytes args.entry.now)) result }
    ensures rows { IfOk result (λ m. rows_of (found_of m) ≡ reader_rows (map string_bytes args.entry.now)) }
{
    command(alloc)?.try_get_matches_from(args)
}

/// The plain arguments in order.
fn plain_words<'a>(
    first: Option<&'a str>,
    second: Option<&'a str>,
    third: Option<&'a str>,
) -> PlainWords<'a>
    ensures { plain_view result ≡ cons_option (option_map (λ w. w.now) first.entry)
        (cons_option (option_map (λ w. w.now) second.entry) (cons_option (option_map (λ w. w.now) third.entry) [])) }
{
    match (first, second, third) {
        (None, None, None) => PlainWords::None,
        (Some(one), None, None) | (None, Some(one), None) | (None, None, Some(one)) => {
            PlainWords::One(one)
        }
        (Some(one), Some(two), None)
        | (Some(one), None, Some(two))
        | (None, Some(one), Some(two)) => { PlainWords::Two(one, two) }
        (Some(one), Some(two), Some(three)) => PlainWords::Three(one, two, three),
    }
}

/// The one text that `clap` found for an argument.
fn text_found<'a>(found: &ArgMatches<'a>, name: &str) -> Option<&'a str>
    ensures { option_map (λ text. text.now) result ≡ first_of name.now (rows_of (found_of found.now)) }
{
    found.get_str(name)
}

/// The value that `clap` found for an option.
fn value_found<'a>(found: &ArgMatches<'a>, name: &str) -> Option<&'a [u8]>
    ensures { option_map (λ value. value.now) result ≡ first_of name.now (rows_of (found_of found.now)) }
{
    Some(text_found(found, name)?.as_bytes())
}

/// The uses that `clap` found.
fn uses_found<'a>(found: &ArgMatches<'a>) -> Uses<'a>
    ensures { uses_view result ≡ uses_in (rows_of (found_of found.now)) }
{
    Uses {
        plain: plain_words(
            text_found(found, "command"),
            text_found(found, "path"),
            text_found(found, "image"),
        ),
        slots: value_found(found, "slots"),
        payload: value_found(found, "payload"),
        seed: value_found(found, "seed"),
        frames: value_found(found, "frames"),
    }
}

/// Whether an argument may be in a form.
fn has_meaning(word: &str) -> bool
    ensures { result ≡ has_meaning (word_meaning word.now) }
{
    match word_of(word) {
        Word::Plain | Word::Named(_) | Word::Given(..) => true,
        Word::Wrong => false,
    }
}

/// Whether each argument may be in a form.
fn are_known(args: &[String]) -> bool
    ensures { result ≡ list_all (λ word. has_meaning (word_meaning (string_bytes word))) args.now }
{
    args.iter().all(|word| has_meaning(word.as_str()))
}

/// What the arguments give, where each has its place.
///
/// An argument that no form has is refused before `clap` sees it, since `clap` takes more: an empty argument or value, a lone `-`,
/// and arguments after `--`.
pub(crate) fn read<'a>(alloc: Global, args: &'a [String]) -> Result<Uses<'a>, WordsFault>
    ensures usage { result ≡ Err fault.Usage → uses_of (map string_bytes args.entry.now) ≡ None }
    ensures uses { IfOk result (λ u. uses_of (map string_bytes args.entry.now) ≡ Some (uses_view u)) }
{
    if !are_known(args) {
        return Err(WordsFault::Usage);
    }
    match matches(alloc, args) {
        Ok(found) => Ok(uses_found(&found)),
        Err(error) => match error.kind() {
            ErrorKind::OutOfMemory => Err(WordsFault::NoMemory),
            _ => Err(WordsFault::Usage),
        },
    }
}
