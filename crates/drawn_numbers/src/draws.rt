//! The generator of draws. No function takes memory.
ghost use Rattle.std.specs.Prelude.{◌≡◌, ◌<◌};
ghost use Rattle.drawn_numbers.specs.Draws.{drawn, drawn_below, next_state};

use std::marker::Model;

/// A generator of draws, seen as its state.
#[derive(Drop, Debug)]
pub struct Draws {
    state: u64,
}

impl Model for Draws {
    ghost use Rattle.std.specs.Prelude.{ℕ};

    ghost Value = { ℕ };

    ghost view = { λ d. d.state };
}

impl Draws {
    /// The draws of a seed, from the first one on.
    pub fn new(seed: u64) -> Draws
        ensures { result ≡ seed }
    {
        Draws { state: seed }
    }

    /// The next draw.
    pub fn draw(&mut self) -> u64
        ensures state { self.new ≡ next_state self.old }
        ensures value { result ≡ drawn self.new }
    {
        self.state = self
            .state
            .wrapping_mul(6_364_136_223_846_793_005)
            .wrapping_add(1_442_695_040_888_963_407);
        self.state >> 33
    }

    /// The next draw, below a bound.
    pub fn below(&mut self, bound: u32) -> u32
        requires { 0 < bound }
        ensures state { self.new ≡ next_state self.old }
        ensures value { result ≡ drawn_below self.new bound }
    {
        (self.draw() % bound as u64) as u32
    }

    /// The state in front of the next draw.
    pub fn state(&self) -> u64
        ensures { result ≡ self.now }
    {
        self.state
    }
}
