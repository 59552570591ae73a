//! Pairs of places in a list.
ghost use Rattle.std.specs.Prelude.{◌≡◌, ◌<◌, sum};
ghost use Rattle.complete.specs.Limits.{place_limit};

use monos::Mono;

/// Two places in a list, with the least common multiple of their leads, its degree, and the sugar of the pair.
#[derive(Drop)]
pub(crate) struct Parts {
    pub(crate) left: u32,
    pub(crate) right: u32,
    pub(crate) multiple: Mono,
    pub(crate) degree: u32,
    pub(crate) sugar: u64,
    pub ghost degree_is: { degree ≡ sum multiple },
    pub ghost degree_fits: { degree < place_limit },
}

/// A pair, whose parts stand elsewhere: so a list of pairs has one word to move for each.
#[derive(Drop)]
pub(crate) struct Pair {
    pub(crate) parts: Box<Parts>,
}
