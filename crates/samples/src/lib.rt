//! What the tests of several crates share: names of nodes, processes and objects, and numbers drawn from a seed.
//! No program stands on it.
#![tactic(auto)]

ghost use Rattle.std.specs.Prelude.{◌≡◌, ◌≤◌, ◌<◌, ◌^◌, IfOk};

use std::test::Fail;
use uid_names::{NodeId, ProcId, Uid};

/// The node of this number.
pub fn node(number: u8) -> Result<NodeId, Fail>
    ensures { IfOk result (λ node. node ≡ number) }
{
    Ok(NodeId::new(number).ok_or("no such node")?)
}

/// The process of this number at a node.
pub fn proc(at: u8, number: u8) -> Result<ProcId, Fail>
    ensures { IfOk result (λ p. p ≡ record { node = at; number = number }) }
{
    let node = node(at)?;
    Ok(ProcId::new(node, number).ok_or("no such process")?)
}

/// The object of this counter at a home.
pub fn object(counter: u64, home: u8) -> Result<Uid, Fail>
    requires low { 1 ≤ counter }
    requires high { counter < 2 ^ 44 }
    ensures { IfOk result (λ u. u ≡ record { counter = counter; home = home }) }
{
    let home = node(home)?;
    Ok(Uid::from_parts(counter, home))
}

/// Numbers that look random, the same in each run.
#[derive(Drop)]
pub struct Draws(u64);

impl Draws {
    /// The numbers of a seed.
    pub fn new(seed: u64) -> Draws {
        Draws(seed)
    }

    /// A number below n.
    pub fn below(&mut self, n: u64) -> u64
        requires { 0 < n }
        ensures { result < n }
    {
        // Knuth's multiplier for 64 bits; the high bits are the good ones.
        self.0 = self
            .0
            .wrapping_mul(6_364_136_223_846_793_005)
            .wrapping_add(1_442_695_040_888_963_407);
        (self.0 >> 33) % n
    }
}
