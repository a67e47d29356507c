//! Paths.
ghost use Rattle.std.specs.Prelude.{◌≡◌, is_some, ◌++◌, List, ℕ, None, Some, true, false, MatchOption, IfOk, OnOk, IfSome};
ghost use Rattle.dir_records.specs.Paths.{pieces, is_node_name, names_of, from_node as route_from_node, from_slash as route_from_slash, along as route_along, route_of};

use crate::component::Component;
use crate::names::Names;
use dom_text::{are_name_bytes, cut};
use std::alloc::Global;
use uid_names::NoMemory;

/// The most bytes of a path.
pub const PATH_BYTES: usize = 256;

/// Where a path starts.
#[derive(Clone, Copy, Debug, PartialEq, Eq)]
pub enum Start {
    /// `//`, which lists the nodes.
    Root,
    /// The entry directory of the node of this name.
    Node(Component),
    /// The entry directory of the own node.
    Own,
    /// The working directory, or the directory that holds the link.
    Working,
}

/// A path: where it starts, and the names that are looked up from there.
#[derive(Drop)]
pub struct Route {
    pub start: Start,
    pub names: Names,
}

/// The name of a node that a text is.
fn node_name(name: &[u8]) -> Option<Component>
    ensures { MatchOption result (is_node_name name.now ≡ false) (λ c. (c ≡ name.now) × (is_node_name name.now ≡ true)) }
{
    if !are_name_bytes(name) {
        return None;
    }
    Component::read(name)
}

/// The names between the slashes of a text; None where one is no name.
#[tactic(auto, using(crate::proofs::Pieces::one_piece, crate::proofs::Pieces::first_piece))]
fn names_in(alloc: Global, text: &[u8]) -> Result<Option<Names>, NoMemory>
    ensures { IfOk result (λ names. names ≡ names_of (pieces text.now)) }
{
    let mut names = Names::new(alloc);
    let mut rest = text;
    while let Some((front, back)) = cut(rest, b'/') {
        let Some(name) = Component::read(front) else {
            return Ok(None);
        };
        names.push(name)?;
        rest = back;
    }
    let Some(name) = Component::read(rest) else {
        return Ok(None);
    };
    names.push(name)?;
    Ok(Some(names))
}

/// The path from a start along the names of a text.
fn along(alloc: Global, start: Start, text: &[u8]) -> Result<Option<Route>, NoMemory>
    ensures { IfOk result (λ route. route ≡ route_along start (names_of (pieces text.now))) }
{
    match names_in(alloc, text)? {
        Some(names) => Ok(Some(Route { start, names })),
        None => Ok(None),
    }
}

/// The path from the node that a text begins with.
#[tactic(auto, using(crate::proofs::Pieces::one_piece, crate::proofs::Pieces::first_piece))]
fn from_node(alloc: Global, text: &[u8]) -> Result<Option<Route>, NoMemory>
    ensures { IfOk result (λ route. route ≡ route_from_node (pieces text.now)) }
{
    let Some((front, back)) = cut(text, b'/') else {
        return Ok(match node_name(text) {
            Some(name) => Some(Route {
                start: Start::Node(name),
                names: Names::new(alloc),
            }),
            None => None,
        });
    };
    match node_name(front) {
        Some(name) => along(alloc, Start::Node(name), back),
        None => Ok(None),
    }
}

/// The path of a text behind one slash.
fn from_slash(alloc: Global, text: &[u8]) -> Result<Option<Route>, NoMemory>
    ensures { IfOk result (λ route. route ≡ route_from_slash text.now) }
{
    let Some((first, rest)) = text.split_first() else {
        return Ok(Some(Route {
            start: Start::Own,
            names: Names::new(alloc),
        }));
    };
    if *first != b'/' {
        return along(alloc, Start::Own, text);
    }
    if rest.is_empty() {
        return Ok(Some(Route {
            start: Start::Root,
            names: Names::new(alloc),
        }));
    }
    from_node(alloc, rest)
}

impl Route {
    /// The path of a text; None exactly where it is of none.
    pub fn read(alloc: Global, text: &[u8]) -> Result<Option<Route>, NoMemory>
        ensures { IfOk result (λ route. route ≡ route_of text.now) }
    {
        if text.len() > PATH_BYTES {
            return Ok(None);
        }
        let Some((first, rest)) = text.split_first() else {
            return Ok(None);
        };
        if *first == b'/' {
            from_slash(alloc, rest)
        } else {
            along(alloc, Start::Working, text)
        }
    }
}

/// Whether a text is a path.
pub fn is_path(alloc: Global, text: &[u8]) -> Result<bool, NoMemory>
    ensures { IfOk result (λ yes. yes ≡ is_some (route_of text.now)) }
{
    Ok(Route::read(alloc, text)?.is_some())
}
