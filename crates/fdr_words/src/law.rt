//! What holds of the order of the arguments, and of the two ways to write an option.

ghost use Rattle.std.specs.Prelude.{◌≡◌, ◌++◌, ◌∷◌, ℕ, List, true, false};
ghost use Rattle.std.specs.Str.Parse.{starts_with_minus};
ghost use Rattle.fdr_words.specs.Forms.{form_of};
ghost use Rattle.fdr_words.specs.Spelling.{Spelling, two_words, one_word, option_args, ends_in_option_name};
ghost use Rattle.fdr_words.specs.Words.{is_plain, uses_of};
ghost use Rattle.fdr_words.specs.declared.uses.OptionName.{OptionName};

/// A law, and no work: options may be anywhere. An option with its value may be moved past a plain argument, unless the argument
/// in front of both takes what follows it as its own value, and past another option. The arguments then give the same, and
/// are of the same form.
pub fn options_may_be_anywhere()
    ensures past_a_plain_word { (before after : List (List ℕ)) (word : List ℕ) (how : Spelling) (option : OptionName) (value : List ℕ)
        → ends_in_option_name before ≡ false → is_plain word ≡ true
        → uses_of (before ++ option_args how option value ++ word ∷ after) ≡ uses_of (before ++ word ∷ option_args how option value ++ after) }
    ensures past_a_plain_word_in_a_form { (before after : List (List ℕ)) (word : List ℕ) (how : Spelling) (option : OptionName) (value : List ℕ)
        → ends_in_option_name before ≡ false → is_plain word ≡ true
        → form_of (before ++ option_args how option value ++ word ∷ after) ≡ form_of (before ++ word ∷ option_args how option value ++ after) }
    ensures past_an_option { (before after : List (List ℕ)) (how how_other : Spelling) (option other : OptionName) (value other_value : List ℕ)
        → uses_of (before ++ option_args how option value ++ option_args how_other other other_value ++ after)
        ≡ uses_of (before ++ option_args how_other other other_value ++ option_args how option value ++ after) }
    ensures past_an_option_in_a_form { (before after : List (List ℕ)) (how how_other : Spelling) (option other : OptionName) (value other_value : List ℕ)
        → form_of (before ++ option_args how option value ++ option_args how_other other other_value ++ after)
        ≡ form_of (before ++ option_args how_other other other_value ++ option_args how option value ++ after) }
{}

/// A law, and no work: `--NAME VALUE` and `--NAME=VALUE` are one form, whatever the value is. They also give the same,
/// except where the value begins with `-`: as an argument of its own it is none, and after `=` it is no number.
pub fn options_may_be_one_word_or_two()
    ensures uses { (before after : List (List ℕ)) (option : OptionName) (value : List ℕ) → starts_with_minus value ≡ false
        → uses_of (before ++ option_args two_words option value ++ after) ≡ uses_of (before ++ option_args one_word option value ++ after) }
    ensures form { (before after : List (List ℕ)) (option : OptionName) (value : List ℕ)
        → form_of (before ++ option_args two_words option value ++ after) ≡ form_of (before ++ option_args one_word option value ++ after) }
{}
