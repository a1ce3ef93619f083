//! What a person at a terminal reads in front of `fdr: usage`.

use std::io;
use std::io::Write;

/// The version of the program.
const VERSION: &str = "0.2.0";

/// A command, as its words are to be.
struct Form {
    command: &'static str,
    /// How many plain words there are, the command's own among them.
    plain: usize,
    options: Options,
    text: &'static str,
}

/// The options of a command.
enum Options {
    None,
    Ring,
    MaybeRing,
    Drawn,
}

impl Options {
    fn names(&self) -> &'static [&'static str] {
        match self {
            Options::None => &[],
            Options::Ring | Options::MaybeRing => &["--slots", "--payload"],
            Options::Drawn => &["--seed", "--frames"],
        }
    }
}

/// A word of a command line.
#[derive(Clone, Copy)]
enum Word<'a> {
    Plain(&'a str),
    /// An option's name.
    Option(&'a str),
    /// What may be the value of the option before it.
    Value,
}

const FORMS: [Form; 13] = [
    Form {
        command: "check",
        plain: 2,
        options: Options::None,
        text: "fdr check TABLE",
    },
    Form {
        command: "stream",
        plain: 2,
        options: Options::None,
        text: "fdr stream TABLE",
    },
    Form {
        command: "listbits",
        plain: 2,
        options: Options::None,
        text: "fdr listbits TABLE",
    },
    Form {
        command: "encode",
        plain: 1,
        options: Options::None,
        text: "fdr encode",
    },
    Form {
        command: "decode",
        plain: 1,
        options: Options::None,
        text: "fdr decode",
    },
    Form {
        command: "format",
        plain: 3,
        options: Options::Ring,
        text: "fdr format TABLE IMAGE --slots N --payload P",
    },
    Form {
        command: "record",
        plain: 3,
        options: Options::None,
        text: "fdr record TABLE IMAGE",
    },
    Form {
        command: "recover",
        plain: 2,
        options: Options::None,
        text: "fdr recover IMAGE",
    },
    Form {
        command: "list",
        plain: 3,
        options: Options::None,
        text: "fdr list TABLE IMAGE",
    },
    Form {
        command: "salvage",
        plain: 3,
        options: Options::MaybeRing,
        text: "fdr salvage TABLE IMAGE [--slots N --payload P]",
    },
    Form {
        command: "exceed",
        plain: 3,
        options: Options::None,
        text: "fdr exceed TABLE IMAGE",
    },
    Form {
        command: "upgrade",
        plain: 2,
        options: Options::None,
        text: "fdr upgrade IMAGE",
    },
    Form {
        command: "drill",
        plain: 3,
        options: Options::Drawn,
        text: "fdr drill TABLE IMAGE --seed S --frames F",
    },
];

/// Writes the version, and the form of the command that the words name with what is wrong of them, or else all forms.
pub fn explain(to: &mut impl Write, words: &[String]) -> io::Result<()> {
    write(to, &["fdr ", VERSION, "\n"])?;
    let command = command_of(words);
    for form in &FORMS {
        if command == Some(form.command) {
            write(to, &["usage: ", form.text, "\n", form.command, ": "])?;
            tell_wrong(to, form, words)?;
            return write(to, &["\n"]);
        }
    }
    tell_forms(to)
}

fn tell_forms(to: &mut impl Write) -> io::Result<()> {
    let mut begins = "usage: ";
    for form in &FORMS {
        write(to, &[begins, form.text, "\n"])?;
        begins = "       ";
    }
    Ok(())
}

/// Writes what is wrong with the words of this command: the first of these that is found.
fn tell_wrong(to: &mut impl Write, form: &Form, words: &[String]) -> io::Result<()> {
    let plain = plain_words(words);
    if let Some(name) = foreign_option(words, form) {
        write(to, &["it has no option ", name])
    } else if plain < form.plain {
        write(to, &["too few words"])
    } else if plain > form.plain {
        write(to, &["too many words"])
    } else if let Some(name) = lacking_option(words, form) {
        write(to, &["it needs ", name])
    } else {
        write(
            to,
            &["a word is empty, or an option's value is missing, given twice or out of its range"],
        )
    }
}

fn write(to: &mut impl Write, texts: &[&str]) -> io::Result<()> {
    for text in texts {
        to.write_all(text.as_bytes())?;
    }
    Ok(())
}

/// What the next word may be, as words are gone over from the first.
#[derive(Drop)]
struct Reader {
    may_be_value: bool,
}

impl Reader {
    fn new() -> Reader {
        Reader {
            may_be_value: false,
        }
    }

    fn read<'a>(&mut self, word: &'a str) -> Word<'a> {
        let follows_option = self.may_be_value;
        self.may_be_value = word.starts_with('-') && !word.contains('=');
        if word.starts_with('-') {
            Word::Option(word.split_once('=').map_or(word, |(name, _)| name))
        } else if follows_option {
            Word::Value
        } else {
            Word::Plain(word)
        }
    }
}

/// The first plain word.
fn command_of(words: &[String]) -> Option<&str> {
    let mut reader = Reader::new();
    for word in words {
        if let Word::Plain(word) = reader.read(word) {
            return Some(word);
        }
    }
    None
}

fn plain_words(words: &[String]) -> usize {
    let mut reader = Reader::new();
    let mut count: usize = 0;
    for word in words {
        if let Word::Plain(_) = reader.read(word) {
            count = count.saturating_add(1);
        }
    }
    count
}

/// The first option that the command doesn't have.
fn foreign_option<'a>(words: &'a [String], form: &Form) -> Option<&'a str> {
    let mut reader = Reader::new();
    for word in words {
        match reader.read(word) {
            Word::Option(name) if !form.options.names().contains(&name) => return Some(name),
            _ => {}
        }
    }
    None
}

/// The first option that the command needs and the words don't have.
fn lacking_option(words: &[String], form: &Form) -> Option<&'static str> {
    if matches!(&form.options, Options::MaybeRing) && !has_option(words) {
        return None;
    }
    for name in form.options.names() {
        if !is_given(words, name) {
            return Some(name);
        }
    }
    None
}

fn has_option(words: &[String]) -> bool {
    words.iter().any(|word| word.starts_with('-'))
}

fn is_given(words: &[String], option: &str) -> bool {
    let mut reader = Reader::new();
    for word in words {
        match reader.read(word) {
            Word::Option(name) if name == option => return true,
            _ => {}
        }
    }
    false
}
