// How an entry ends, and document 01's number for it.
ghost use Rattle.std.specs.Prelude.{◌≡◌};
ghost use Rattle.codes.specs.Outcome.{code_of};

#[derive(Clone, Copy, PartialEq, Eq, Debug)]
pub enum Outcome {
    Answered,
    // A table or a buffer breaks a rule.
    Unlawful,
    // A selection asks for `__schema` or `__type`.
    AsksForSchema,
    // A path over 32 segments; a 33rd open container, fragment or set.
    TooFar,
    // A 129th field is collected for one set.
    TooManyFields,
    // A variable inside a literal that converts part by part.
    VariableInLiteral,
    TextTooLong,
    RecordsTooLong,
    // Depth check only.
    TooDeep,
}

impl From<Outcome> for u32 {
    ghost from_gives = { λ outcome code. code ≡ code_of outcome };

    fn from(outcome: Outcome) -> u32 {
        match outcome {
            Outcome::Answered => 0,
            Outcome::Unlawful => 1,
            Outcome::AsksForSchema => 2,
            Outcome::TooFar => 3,
            Outcome::TooManyFields => 4,
            Outcome::VariableInLiteral => 5,
            Outcome::TextTooLong => 6,
            Outcome::RecordsTooLong => 7,
            Outcome::TooDeep => 8,
        }
    }
}

impl Outcome {
    pub fn code(self) -> u32
        ensures { result ≡ code_of self }
    {
        u32::from(self)
    }
}
