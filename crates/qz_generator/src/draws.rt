//! Draws of numbers.
ghost use Rattle.std.specs.Prelude.{◌≡◌, ◌<◌};
ghost use Rattle.qz_generator.specs.Draws.{next_state, drawn};

/// A linear congruential generator modulo 2^64. Each draw moves the state on, and gives a number from its high bits.
#[derive(Clone, Copy, Drop)]
pub(crate) struct Draws {
    pub(crate) state: u64,
}

impl Draws {
    /// The next number, 0 to `n` - 1.
    #[tactic(auto, unfolding(crate::specs::Draws::next_state, crate::specs::Draws::drawn))]
    pub(crate) fn below(&mut self, n: u32) -> u32
        requires { 0 < n }
        ensures state { self.new.state ≡ next_state self.old.state }
        ensures value { result ≡ drawn n self.old.state }
        ensures bound { result < n }
    {
        let wide = u128::from(self.state) * 6364136223846793005 + 1442695040888963407;
        self.state = (wide % (1 << 64)) as u64;
        ((self.state >> 33) % u64::from(n)) as u32
    }
}
