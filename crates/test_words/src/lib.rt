//! The lowest crates under test, and those that read and make scripts: names, streams, texts, a script row by row. They are tried here
//! since a crate that has tests is proved twice. No program stands on it.
#![tactic(auto)]

#[cfg(test)]
mod making;
#[cfg(test)]
mod names;
#[cfg(test)]
mod reading;
#[cfg(test)]
mod streams;
#[cfg(test)]
mod texts;
