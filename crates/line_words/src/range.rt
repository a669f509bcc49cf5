//! Ranges of numbers.
ghost use Rattle.std.specs.Prelude.{◌≡◌};
ghost use Rattle.line_words.specs.Words.{from_to, is_in};

/// The numbers from one to another.
#[derive(Clone, Copy, Debug, PartialEq, Eq)]
pub struct Range {
    /// The least number.
    pub least: u64,
    /// The greatest number.
    pub most: u64,
}

impl Range {
    /// The numbers from one to another.
    pub fn new(least: u64, most: u64) -> Range
        ensures { result ≡ from_to least most }
    {
        Range { least, most }
    }

    /// Whether a number is in it.
    pub fn contains(self, number: u64) -> bool
        ensures { result ≡ is_in self number }
    {
        self.least <= number && number <= self.most
    }
}
