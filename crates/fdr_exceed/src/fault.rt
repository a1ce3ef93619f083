ghost use Rattle.std.specs.Prelude.{◌≡◌};
ghost use Rattle.fdr_exceed.specs.RuleAnswers.{rule_refused};

use fdr_table::NoMemory;

/// What is wrong with the rules.
#[derive(Clone, Copy, Debug, PartialEq, Eq)]
pub enum RuleFault {
    /// The record hasn't five fields.
    Shape,
    /// The kind, the limit or the count isn't a value that may be there. Fields are counted from 0.
    Number { field: u8 },
    /// The rule's name isn't 1 to 16 letters, digits, `_`, `-` and `.`.
    Name,
    /// The table has no parameter of this name.
    Unknown,
    /// A rule above has the same name.
    Twice,
    /// The rules have too many bytes, or there are too many of them.
    Size,
}

/// Why rules weren't read.
#[derive(Clone, Copy, Debug, PartialEq, Eq)]
pub enum RulesError {
    /// The record, counted from 0, and its fault.
    Refused { row: u32, fault: RuleFault },
    /// There wasn't enough memory.
    NoMemory,
}

impl From<NoMemory> for RulesError {
    ghost use Rattle.std.specs.Prelude.{◌≡◌};
    ghost use Rattle.fdr_exceed.specs.declared.fault.RulesError.TheVariants as error;

    ghost from_gives = { λ _ result. result ≡ error.NoMemory };

    fn from(_error: NoMemory) -> RulesError {
        RulesError::NoMemory
    }
}

/// The rules are refused at this record.
pub(crate) fn refused(row: u32, fault: RuleFault) -> RulesError
    ensures { result ≡ rule_refused row fault }
{
    RulesError::Refused { row, fault }
}
