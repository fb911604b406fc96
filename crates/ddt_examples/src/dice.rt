//! Numbers that look drawn by lot, the same in each run.

ghost use Rattle.std.specs.Prelude.{◌<◌, length};
ghost use Rattle.std.specs.List.{Contains};

use rand_core::utils::NextWord;
use rand_pcg::Pcg32;

/// Dice of as many sides as are asked for.
#[derive(Drop)]
pub struct Dice {
    words: Pcg32,
}

impl Dice {
    /// The dice of a seed.
    pub fn of(seed: u64) -> Dice {
        Dice {
            words: Pcg32::new(seed, 0),
        }
    }

    /// A number below `count`.
    pub fn below(&mut self, count: usize) -> usize
        requires { 0 < count }
        ensures { result < count }
    {
        self.words.next_word() as usize % count
    }

    /// One of a few items.
    pub fn one_of<T: Copy>(&mut self, items: &[T]) -> T
        requires { 0 < length items.now }
        ensures { Contains items.now result }
    {
        items[self.below(items.len())]
    }
}
