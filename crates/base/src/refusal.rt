// What a call refuses, in the order of the numbers that callers are given.
ghost use Rattle.std.specs.Prelude.{◌≡◌};
ghost use Rattle.base.specs.Refusal.{refusal_number};

#[derive(Clone, Copy, PartialEq, Eq, PartialOrd, Ord)]
pub enum Refusal {
    // The length of the input.
    Length = 1,
    // The length of the result slice.
    ResultLength = 2,
    // A record that is malformed.
    Record = 3,
    // A width that is none, or not that of the file.
    Width = 4,
    // A cast.
    Cast = 5,
    // A shift count of 64 or more.
    ShiftCount = 6,
    // An expression that is not linear.
    NotLinear = 8,
    // A table that passes a limit.
    TooLarge = 9,
    // No semilinear form.
    NotSemilinear = 10,
    // Two widths that differ.
    WidthsDiffer = 11,
    // Too many variables together.
    Variables = 12,
    // A shift over a variable.
    ShiftedVariable = 13,
    // Rules of a number that there is not.
    Rules = 18,
    // A run that is malformed.
    Run = 20,
    // Days that do not rise.
    Days = 21,
    // No list of passes.
    Passes = 32,
}

impl Refusal {
    // Its number.
    pub fn number(self) -> u64
        ensures { result ≡ refusal_number self }
    {
        self as u64
    }
}
