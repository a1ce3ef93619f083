//! What the arguments give: the arguments of the form itself, and the values of options.

ghost use Rattle.std.specs.Prelude.{◌≡◌, ◌≤◌, Some, None, IfSome, length, map, string_bytes};
ghost use Rattle.std.specs.Option.{option_map};
ghost use Rattle.fdr_words.specs.Views.{uses_view, word_view};
ghost use Rattle.fdr_words.specs.Words.{is_plain, most_form_args, value_after, word_meaning, with_plain, with_value, uses_of, value_in};

/// An option of a command.
#[derive(Clone, Copy)]
pub(crate) enum OptionName {
    /// How many blocks a ring has room for.
    Slots,
    /// How many bytes a block has at most.
    Payload,
    /// What a drill's trace is drawn from.
    Seed,
    /// How many frames a drill has.
    Frames,
}

/// What an argument is.
#[derive(Clone, Copy)]
pub(crate) enum Word<'a> {
    /// An argument of the form itself.
    Plain,
    /// `--NAME`: the option's value is the next argument.
    Named(OptionName),
    /// `--NAME=VALUE`.
    Given(OptionName, &'a [u8]),
    /// An argument that no form has.
    Wrong,
}

/// The arguments of the form itself, of which no form has more than three.
#[derive(Clone, Copy)]
pub(crate) enum PlainWords<'a> {
    None,
    One(&'a str),
    Two(&'a str, &'a str),
    Three(&'a str, &'a str, &'a str),
}

/// The plain arguments in order, and the value that each option is given.
#[derive(Clone, Copy)]
pub(crate) struct Uses<'a> {
    pub(crate) plain: PlainWords<'a>,
    pub(crate) slots: Option<&'a [u8]>,
    pub(crate) payload: Option<&'a [u8]>,
    pub(crate) seed: Option<&'a [u8]>,
    pub(crate) frames: Option<&'a [u8]>,
}

impl<'a> Uses<'a> {
    /// Another plain argument in front.
    fn with_plain(self, word: &'a str) -> Option<Uses<'a>>
        ensures { option_map uses_view result ≡ with_plain word.now (uses_view self.entry) }
    {
        let plain = match self.plain {
            PlainWords::None => PlainWords::One(word),
            PlainWords::One(first) => PlainWords::Two(word, first),
            PlainWords::Two(first, second) => PlainWords::Three(word, first, second),
            PlainWords::Three(..) => return None,
        };
        Some(Uses { plain, ..self })
    }

    /// An option with its value, which isn't given yet.
    fn with_value(self, option: OptionName, value: &'a [u8]) -> Option<Uses<'a>>
        ensures { option_map uses_view result ≡ with_value option value.now (uses_view self.entry) }
    {
        match option {
            OptionName::Slots => match self.slots {
                None => Some(Uses {
                    slots: Some(value),
                    ..self
                }),
                Some(_) => None,
            },
            OptionName::Payload => match self.payload {
                None => Some(Uses {
                    payload: Some(value),
                    ..self
                }),
                Some(_) => None,
            },
            OptionName::Seed => match self.seed {
                None => Some(Uses {
                    seed: Some(value),
                    ..self
                }),
                Some(_) => None,
            },
            OptionName::Frames => match self.frames {
                None => Some(Uses {
                    frames: Some(value),
                    ..self
                }),
                Some(_) => None,
            },
        }
    }
}

/// Whether an argument is neither empty nor an option argument.
fn is_plain(word: &str) -> bool
    ensures { result ≡ is_plain word.now }
{
    match word.as_bytes() {
        [] => false,
        [byte, ..] => *byte != b'-',
    }
}

/// What follows a prefix of an argument, where something does.
#[tactic(auto, unfolding(crate::specs::Words::value_after))]
fn value_after<'a>(prefix: &[u8], word: &'a [u8]) -> Option<&'a [u8]>
    ensures { option_map (λ value. value.now) result ≡ value_after prefix.now word.now }
{
    let value = word.strip_prefix(prefix)?;
    if value.is_empty() {
        return None;
    }
    Some(value)
}

/// What an argument is.
#[tactic(auto, unfolding(crate::specs::Words::word_meaning))]
pub(crate) fn word_of(word: &str) -> Word<'_>
    ensures { word_view result ≡ word_meaning word.now }
{
    if is_plain(word) {
        return Word::Plain;
    }
    if word == "--slots" {
        return Word::Named(OptionName::Slots);
    }
    if word == "--payload" {
        return Word::Named(OptionName::Payload);
    }
    if word == "--seed" {
        return Word::Named(OptionName::Seed);
    }
    if word == "--frames" {
        return Word::Named(OptionName::Frames);
    }
    if let Some(value) = value_after(b"--slots=", word.as_bytes()) {
        return Word::Given(OptionName::Slots, value);
    }
    if let Some(value) = value_after(b"--payload=", word.as_bytes()) {
        return Word::Given(OptionName::Payload, value);
    }
    if let Some(value) = value_after(b"--seed=", word.as_bytes()) {
        return Word::Given(OptionName::Seed, value);
    }
    match value_after(b"--frames=", word.as_bytes()) {
        Some(value) => Word::Given(OptionName::Frames, value),
        None => Word::Wrong,
    }
}

/// What the arguments give, where each has its place. It calls itself for the arguments after the first, so that the bound on
/// their number, which the longest form has, is a bound on the stack.
#[tactic(auto, using(crate::proofs::UsesSteps::given_step))]
pub(crate) fn uses_of(args: &[String]) -> Option<Uses<'_>>
    requires { length args.now ≤ most_form_args }
    ensures { option_map uses_view result ≡ uses_of (map string_bytes args.now) }
{
    let [word, rest @ ..] = args else {
        return Some(Uses {
            plain: PlainWords::None,
            slots: None,
            payload: None,
            seed: None,
            frames: None,
        });
    };
    let word = word.as_str();
    match word_of(word) {
        Word::Plain => uses_of(rest)?.with_plain(word),
        Word::Given(option, value) => uses_of(rest)?.with_value(option, value),
        Word::Named(option) => {
            let [next, rest @ ..] = rest else {
                return None;
            };
            if !is_plain(next.as_str()) {
                return None;
            }
            uses_of(rest)?.with_value(option, next.as_str().as_bytes())
        }
        Word::Wrong => None,
    }
}
