ghost use Rattle.std.specs.Prelude.{◌≡◌, IfSome, IsTrue, false};
ghost use Rattle.fdr_table.specs.Fields.{sign_of, is_signed, is_telling};

/// How a parameter's field is read.
#[derive(Clone, Copy)]
pub(crate) enum Sign {
    /// `U`: the bits are a number without a sign.
    Unsigned,
    /// `S`: the bits are two's complement.
    Signed,
    /// `V`: one bit, which isn't taken from the bus word and tells whether that is fresh.
    Telling,
}

impl Sign {
    /// The sign that a field of a table's row says, of a parameter with so many bits.
    #[tactic(auto, unfolding(crate::specs::Fields::sign_of))]
    pub(crate) fn of(width: u64, field: &[u8]) -> Option<Sign>
        ensures exactly { result ≡ sign_of width field.now }
        ensures one_bit { IfSome result (λ sign. IsTrue (is_telling sign) → width ≡ 1) }
    {
        if field == b"U".as_slice() {
            Some(Sign::Unsigned)
        } else if field == b"S".as_slice() {
            Some(Sign::Signed)
        } else if field == b"V".as_slice() && width == 1 {
            Some(Sign::Telling)
        } else {
            None
        }
    }

    /// Whether the bits are two's complement.
    pub(crate) fn is_signed(self) -> bool
        ensures exactly { result ≡ is_signed self }
        ensures apart { IsTrue (is_telling self) → result ≡ false }
    {
        match self {
            Sign::Signed => true,
            Sign::Unsigned | Sign::Telling => false,
        }
    }

    /// Whether the one bit tells that the bus word is fresh.
    pub(crate) fn is_telling(self) -> bool
        ensures { result ≡ is_telling self }
    {
        match self {
            Sign::Telling => true,
            Sign::Unsigned | Sign::Signed => false,
        }
    }
}
