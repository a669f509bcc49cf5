//! Pseudo-random draws, the same in each run.
ghost use Rattle.std.specs.Prelude.{◌<◌, ◌≤◌};

/// A linear congruential generator of 64 bits.
#[derive(Clone, Copy)]
pub(crate) struct Draw {
    state: u64,
}

impl Draw {
    /// The generator that starts from a number.
    pub(crate) fn from(seed: u64) -> Draw {
        Draw { state: seed }
    }

    // The next number of 31 bits. The high bits of the state are the most irregular ones.
    fn next(&mut self) -> u64 {
        self.state = self
            .state
            .wrapping_mul(6_364_136_223_846_793_005)
            .wrapping_add(1_442_695_040_888_963_407);
        self.state >> 33
    }

    /// A number below a bound above 0.
    pub(crate) fn below(&mut self, bound: u64) -> u64
        requires { 0 < bound }
        ensures { result < bound }
    {
        self.next() % bound
    }
}

/// Where a line stands in the order that a number draws, from the least rank on: a hash of both.
pub(crate) fn drawn_rank(line: u16, number: u32) -> u64 {
    let mixed = (u64::from(line) + 1)
        .wrapping_add(u64::from(number).wrapping_mul(0xD1B5_4A32_D192_ED03))
        .wrapping_mul(0x9E37_79B9_7F4A_7C15);
    let hash = (mixed ^ (mixed >> 31)).wrapping_mul(0xBF58_476D_1CE4_E5B9);
    u64::MAX - (hash >> 40)
}
