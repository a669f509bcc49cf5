//! The draws of a number.
ghost use Rattle.std.specs.Prelude.{◌≡◌, ◌<◌};
ghost use Rattle.case_maker.specs.Draws.{drawn, next_state};

/// A linear congruential sequence of 64 bits, from which numbers are drawn.
#[derive(Drop)]
pub(crate) struct Draws {
    state: u64,
}

impl Draws {
    /// The sequence that starts from a number.
    pub(crate) fn from(number: u64) -> Draws
        ensures { result.state ≡ number }
    {
        Draws { state: number }
    }

    /// The next draw, below a bound above 0. The upper bits of a state are the most irregular ones.
    pub(crate) fn below(&mut self, bound: u32) -> u32
        requires { 0 < bound }
        ensures state { self.new.state ≡ next_state self.old.state }
        ensures value { result ≡ drawn self.new.state bound }
        ensures below { result < bound }
    {
        self.state = self
            .state
            .wrapping_mul(6_364_136_223_846_793_005)
            .wrapping_add(1_442_695_040_888_963_407);
        (self.state >> 33) as u32 % bound
    }
}

#[cfg(test)]
mod tests {
    use super::*;

    #[test]
    fn draws(rt: HostRuntime) {
        let mut draws = Draws::from(7);
        assert_eq!(rt; draws.below(300), 278);
        assert_eq!(rt; draws.state, 9_098_160_460_397_411_210);
        assert_eq!(rt; draws.state >> 33, 1_059_165_278);
    }
}
