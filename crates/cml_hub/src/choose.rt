//! Who chooses among the communications that are possible.

ghost use Rattle.std.specs.Prelude.{◌≡◌, ◌<◌, ◌%◌, ℕ, drop};
ghost use Rattle.rand_pcg.specs.Pcg.{pcg32};
ghost use Rattle.cml_hub.specs.Choices.{first_number, seeded};

use rand_core::SeedableRng;
use rand_core::utils::NextWord;
use rand_pcg::Pcg32;
use std::marker::Model;

/// Chooses among things that are numbered from 0.
pub trait Chooser {
    /// What it picks among this many things.
    ghost picks: { Self → ℕ → ℕ };

    /// What it becomes by a pick.
    ghost next: { Self → Self };

    /// Picks one of this many things, by its number.
    fn pick(&mut self, count: usize) -> usize
        requires { 0 < count }
        ensures below { result < count }
        ensures picked { result ≡ picks self.old count }
        ensures next { self.new ≡ next self.old };
}

/// Always the first.
#[derive(Clone, Copy, Debug)]
pub struct First;

impl Chooser for First {
    ghost picks = { λ _ _. 0 };

    ghost next = { λ first. first };

    fn pick(&mut self, _count: usize) -> usize {
        0
    }
}

/// Picks by the numbers of a list, one after another, each modulo the count of things; then always the first.
#[derive(Debug, Drop)]
pub struct Script {
    numbers: Vec<usize>,
    at: usize,
}

impl Model for Script {
    ghost use Rattle.std.specs.Prelude.{ℕ, List, drop};

    ghost Value = { List ℕ };

    ghost view = { λ s. drop s.at s.numbers.items };
}

impl Script {
    /// The chooser by these numbers.
    pub fn new(numbers: Vec<usize>) -> Script
        ensures { result ≡ numbers.items }
    {
        Script { numbers, at: 0 }
    }
}

impl Chooser for Script {
    ghost picks = { λ numbers count. first_number numbers % count };

    ghost next = { λ numbers. drop 1 numbers };

    fn pick(&mut self, count: usize) -> usize {
        match self.numbers.get(self.at) {
            Some(number) => {
                let number = *number;
                self.at += 1;
                number % count
            }
            None => 0,
        }
    }
}

/// Picks by a generator of random numbers with a seed: the same seed picks the same.
#[derive(Drop)]
pub struct Seeded {
    random: Pcg32,
}

impl Model for Seeded {
    ghost use Rattle.rand_pcg.specs.Lcg.{Lcg};

    ghost Value = { Lcg };

    ghost view = { λ s. s.random };
}

impl Seeded {
    /// The chooser by this seed.
    pub fn new(seed: u64) -> Seeded
        ensures { result ≡ seeded seed }
    {
        Seeded {
            random: Pcg32::seed_from_u64(seed),
        }
    }
}

impl Chooser for Seeded {
    ghost picks = { λ state count. (pcg32 state).0 % count };

    ghost next = { λ state. (pcg32 state).1 };

    fn pick(&mut self, count: usize) -> usize {
        self.random.next_word() as usize % count
    }
}
