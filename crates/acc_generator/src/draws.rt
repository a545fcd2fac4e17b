//! Numbers that look like chance and follow from a seed.
ghost use Rattle.std.specs.Prelude.{◌≡◌, ◌/◌, ◌^◌};
ghost use Rattle.acc_generator.specs.Draws.{next_state};

/// A linear congruence modulo 2^64. Its low bits repeat soon, so a draw takes the high ones alone.
#[derive(Drop)]
pub(crate) struct Draws {
    state: u64,
}

impl Draws {
    /// The draws of a seed, from the first one on.
    pub(crate) fn new(seed: u64) -> Draws
        ensures { result.state ≡ seed }
    {
        Draws { state: seed }
    }

    /// The next number, which is below 2^31.
    pub(crate) fn draw(&mut self) -> u64
        ensures state { self.new.state ≡ next_state self.old.state }
        ensures number { result ≡ self.new.state / 2 ^ 33 }
    {
        self.state = self
            .state
            .wrapping_mul(6364136223846793005)
            .wrapping_add(1442695040888963407);
        self.state >> 33
    }
}
