//! Nodes, processes, objects and places.
ghost use Rattle.std.specs.Prelude.{◌≡◌, ◌≢◌, ℕ, ◌+◌, ◌-◌, ◌*◌, ◌/◌, ◌%◌, ◌^◌, ◌<◌, ◌≤◌, ◌↔◌, IsTrue, IsSome, IfSome, IsOk, IfOk, OnErr};
ghost use Rattle.uid_names.specs.Names.{ObjectName, IsName, number_of, place_of_process, same_proc, same_uid, proc_lt, uid_lt};
ghost use Rattle.uid_names.specs.declared.limits.TheConstants.{PROCESSES};
ghost use Rattle.uid_names.specs.Texts.{text_of};

use crate::limits::NODE_PROCESSES;
use std::marker::Model;
use thiserror::Error;

/// A node, numbered from 1 to 8.
#[derive(Clone, Copy, Debug, PartialEq, Eq, PartialOrd, Ord, Hash)]
pub struct NodeId {
    number: u8,
}

impl Model for NodeId {
    ghost use Rattle.std.specs.Prelude.{ℕ, ◌≤◌};

    ghost Value = { ℕ };

    ghost view = { λ n. n.number };

    ghost invariant = { λ n. (1 ≤ n.number) × (n.number ≤ 8) };

    ghost inverse = { λ v. record { number = v } };
}

impl NodeId {
    /// The node of this number; None outside 1 to 8.
    pub fn new(n: u8) -> Option<NodeId>
        ensures valid { IsSome result ↔ ((1 ≤ n) × (n ≤ 8)) }
        ensures value { IfSome result (λ node. node ≡ n) }
    {
        if 1 <= n && n <= 8 {
            Some(NodeId { number: n })
        } else {
            None
        }
    }

    /// Its number, 1 to 8.
    pub fn number(self) -> u8
        ensures value { result ≡ self }
        ensures least { 1 ≤ result }
        ensures greatest { result ≤ 8 }
    {
        self.number
    }
}

/// A process: its node, and its number there, 1 to 4.
#[derive(Clone, Copy, Debug, PartialEq, Eq, PartialOrd, Ord, Hash)]
pub struct ProcId {
    node: NodeId,
    number: u8,
}

impl Model for ProcId {
    ghost use Rattle.std.specs.Prelude.{ℕ, ◌≤◌};
    ghost use Rattle.uid_names.specs.Names.{ProcName};

    ghost Value = { ProcName };

    ghost view = { λ p. record { node = p.node; number = p.number } };

    ghost invariant = { λ p. (1 ≤ p.number) × (p.number ≤ 4) };

    ghost inverse = { λ v. record { node = v.node; number = v.number } };
}

impl ProcId {
    /// The process of this number at a node; None outside 1 to 4.
    pub fn new(node: NodeId, number: u8) -> Option<ProcId>
        ensures valid { IsSome result ↔ ((1 ≤ number) × (number ≤ 4)) }
        ensures value { IfSome result (λ p. p ≡ record { node = node; number = number }) }
    {
        if 1 <= number && number <= 4 {
            Some(ProcId { node, number })
        } else {
            None
        }
    }

    /// Its node.
    pub fn node(self) -> NodeId
        ensures value { result ≡ self.node }
        ensures least { 1 ≤ result }
        ensures greatest { result ≤ 8 }
    {
        let node = self.node;
        let _number = node.number();
        node
    }

    /// Its number at its node, 1 to 4.
    pub fn number(self) -> u8
        ensures value { result ≡ self.number }
        ensures least { 1 ≤ result }
        ensures greatest { result ≤ 4 }
    {
        self.number
    }

    /// Its place among all processes, by node and then by number: 0 to 31.
    pub fn place(self) -> usize
        ensures value { result ≡ place_of_process self }
        ensures bound { result < PROCESSES }
    {
        let node = self.node().number() as usize;
        (node - 1) * NODE_PROCESSES + (self.number as usize - 1)
    }

    /// Whether the two are one process.
    pub fn is(self, other: ProcId) -> bool
        ensures { result ≡ same_proc self other }
    {
        self.node.number == other.node.number && self.number == other.number
    }

    /// Whether it comes before the other, by node and then by number.
    pub fn is_below(self, other: ProcId) -> bool
        ensures { result ≡ proc_lt self other }
    {
        self.node.number() < other.node.number()
            || (self.node.number() == other.node.number() && self.number < other.number)
    }
}

/// An object's name, unique over all nodes and all time: what its home's counter gave, and its home.
#[derive(Clone, Copy, Debug, PartialEq, Eq, PartialOrd, Ord, Hash)]
pub struct Uid {
    counter: u64,
    home: NodeId,
}

impl Model for Uid {
    ghost use Rattle.std.specs.Prelude.{ℕ, ◌≤◌, ◌<◌, ◌^◌};
    ghost use Rattle.uid_names.specs.Names.{ObjectName};

    ghost Value = { ObjectName };

    ghost view = { λ u. record { counter = u.counter; home = u.home } };

    ghost invariant = { λ u. (1 ≤ u.counter) × (u.counter < 2 ^ 44) };

    ghost inverse = { λ v. record { counter = v.counter; home = v.home } };
}

/// A number or a text that names no object.
#[derive(Clone, Copy, Debug, PartialEq, Eq, Error)]
#[error("no object has such a name")]
pub struct BadUid;

impl Uid {
    /// The name of a counter at a home.
    pub fn from_parts(counter: u64, home: NodeId) -> Uid
        requires low { 1 ≤ counter }
        requires high { counter < 2 ^ 44 }
        ensures { result ≡ record { counter = counter; home = home } }
    {
        Uid { counter, home }
    }

    /// What the home's counter gave, in 44 bits.
    pub fn counter(self) -> u64
        ensures value { result ≡ self.counter }
        ensures least { 1 ≤ result }
        ensures bound { result < 2 ^ 44 }
    {
        self.counter
    }

    /// The home.
    pub fn home(self) -> NodeId
        ensures value { result ≡ self.home }
        ensures least { 1 ≤ result }
        ensures greatest { result ≤ 8 }
    {
        let home = self.home;
        let _number = home.number();
        home
    }

    /// Its 64 bits: the counter in the 44 high ones, the home in the 20 low ones.
    pub fn number(self) -> u64
        ensures value { result ≡ number_of self }
        ensures name { IsName self }
    {
        let home = self.home.number();
        self.counter * 1_048_576 + home as u64
    }

    /// The name of this number; BadUid where the counter is 0 or the low 20 bits are outside 1 to 8.
    pub fn from_number(n: u64) -> Result<Uid, BadUid>
        ensures valid { IsOk result ↔ ((1 ≤ n / 2 ^ 20) × (1 ≤ n % 2 ^ 20) × (n % 2 ^ 20 ≤ 8)) }
        ensures value { IfOk result (λ u. number_of u ≡ n) }
        ensures refused { OnErr result ((u : ObjectName) → IsName u → number_of u ≢ n) }
    {
        let counter = n / 1_048_576;
        let low = n % 1_048_576;
        if counter >= 1 && low >= 1 && low <= 8 {
            match NodeId::new(low as u8) {
                Some(home) => Ok(Uid { counter, home }),
                None => Err(BadUid),
            }
        } else {
            Err(BadUid)
        }
    }

    /// The sixteen lower-case hexadecimal digits of its number.
    pub fn text(self) -> [u8; 16]
        ensures { result ≡ text_of self }
    {
        let mut text = [0; 16];
        let number = self.number().to_be_bytes();
        match hex::encode_to_slice(number, &mut text) {
            Ok(()) => text,
            Err(_) => unreachable!(),
        }
    }

    /// The name that has this text; BadUid where none has.
    pub fn read(text: &[u8]) -> Result<Uid, BadUid>
        ensures value { IfOk result (λ u. text.now ≡ text_of u) }
        ensures refused { OnErr result ((u : ObjectName) → IsName u → text.now ≢ text_of u) }
    {
        let mut number = [0; 8];
        if hex::decode_to_slice(text, &mut number).is_err() {
            return Err(BadUid);
        }
        match Uid::from_number(u64::from_be_bytes(number)) {
            // Only lower-case digits are a name's text.
            Ok(uid) if uid.text().as_slice() == text => Ok(uid),
            _ => Err(BadUid),
        }
    }

    /// Whether the two are one object.
    pub fn is(self, other: Uid) -> bool
        ensures { result ≡ same_uid self other }
    {
        self.counter == other.counter && self.home.number == other.home.number
    }

    /// Whether it comes before the other, by counter and then by home.
    pub fn is_below(self, other: Uid) -> bool
        ensures { result ≡ uid_lt self other }
    {
        self.counter < other.counter
            || (self.counter == other.counter && self.home.number() < other.home.number())
    }
}

/// A place in the order of all events: a tick, and then a node.
#[derive(Clone, Copy, Debug, PartialEq, Eq, PartialOrd, Ord, Hash)]
pub struct Place {
    pub tick: u64,
    pub node: NodeId,
}

/// Gives the names of a node, each once.
#[derive(Debug, Drop)]
pub struct UidSource {
    node: NodeId,
    count: u64,
}

impl Model for UidSource {
    ghost use Rattle.std.specs.Prelude.{ℕ, ◌<◌, ◌^◌};
    ghost use Rattle.uid_names.specs.Names.{Given};

    ghost Value = { Given };

    ghost view = { λ s. record { node = s.node; count = s.count } };

    ghost invariant = { λ s. s.count < 2 ^ 44 };
}

impl UidSource {
    /// A source that has given none.
    pub fn new(node: NodeId) -> UidSource
        ensures { result ≡ record { node = node; count = 0 } }
    {
        UidSource { node, count: 0 }
    }

    /// The next name: its counter is one above the last one given, from 1.
    pub fn next(&mut self) -> Uid
        requires { self.old.count < 2 ^ 44 - 1 }
        ensures name { result ≡ record { counter = self.old.count + 1; home = self.old.node } }
        ensures given { self.new ≡ record { node = self.old.node; count = self.old.count + 1 } }
    {
        self.count += 1;
        Uid {
            counter: self.count,
            home: self.node,
        }
    }
}
