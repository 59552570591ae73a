//! Numbers that look random, the same ones each time.
ghost use Rattle.std.specs.Prelude.{◌≡◌, IfOk};
ghost use Rattle.residue_rows.specs.Draws.{number_behind, drawn, draws_from, after_draws};

use std::alloc::{AllocError, Global};

/// The factor and the summand of the generator of Knuth's MMIX.
const MULTIPLIER: u64 = 6364136223846793005;

const INCREMENT: u64 = 1442695040888963407;

/// Numbers below 2^31 that look random, the same ones each time.
#[derive(Drop)]
pub struct Draws {
    number: u64,
}

impl Draws {
    /// The draws from the beginning.
    pub fn new() -> Draws
        ensures { result.number ≡ 0 }
    {
        Draws { number: 0 }
    }

    /// The next ones.
    pub fn take(&mut self, alloc: Global, count: usize) -> Result<Vec<u64>, AllocError>
        ensures numbers { IfOk result (λ ns. ns.items ≡ draws_from self.old.number count) }
        ensures state { IfOk result (λ _. self.new.number ≡ after_draws self.old.number count) }
    {
        let mut numbers = Vec::new(alloc);
        for _place in 0..count {
            numbers.push(self.draw())?;
        }
        Ok(numbers)
    }

    /// The next one.
    #[tactic(auto, unfolding(crate::specs::Draws::number_behind))]
    fn draw(&mut self) -> u64
        ensures moved { self.new.number ≡ number_behind self.old.number }
        ensures drawn { result ≡ drawn self.new.number }
    {
        self.number = self.number.wrapping_mul(MULTIPLIER).wrapping_add(INCREMENT);
        self.number >> 33
    }
}
