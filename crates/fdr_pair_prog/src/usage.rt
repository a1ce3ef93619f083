//! What a person at a terminal reads in front of `fdrpair: usage`.

use std::io;
use std::io::Write;

/// The version of the program, and its one form.
const HEAD: &str = "fdrpair 0.2.0\nusage: fdrpair record TABLE FIRST SECOND\n";

/// How many words the form has.
const WORDS: usize = 4;

/// Writes the version and the form, and what is wrong with the words where they begin as the form does.
pub fn explain(to: &mut impl Write, words: &[String]) -> io::Result<()> {
    to.write_all(HEAD.as_bytes())?;
    match words.first() {
        Some(word) if word.as_str() == "record" => {
            to.write_all(b"record: ")?;
            to.write_all(wrong(words).as_bytes())?;
            to.write_all(b"\n")
        }
        _ => Ok(()),
    }
}

/// What is wrong with the words of a recording: the first of these that is found.
fn wrong(words: &[String]) -> &'static str {
    if words.iter().any(|word| word.starts_with('-')) {
        "it has no options"
    } else if words.len() < WORDS {
        "too few words"
    } else if words.len() > WORDS {
        "too many words"
    } else {
        "a word is empty"
    }
}
