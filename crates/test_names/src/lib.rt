//! Draws, and walks by chance: names beside a plain tree, files beside plain lists of bytes, and mailboxes beside plain counts. They
//! stand apart since a crate that has tests is proved twice. No program stands on it.
#![tactic(auto)]

#[cfg(test)]
mod draws;
#[cfg(test)]
mod mail_walks;
#[cfg(test)]
mod stream_walks;
#[cfg(test)]
mod tree;
#[cfg(test)]
mod walks;
