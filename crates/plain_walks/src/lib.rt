//! The words of histories under test: what a plain store answers to rows of operations; plans, events and merged logs.
//! No program stands on it.
#![tactic(auto)]

#[cfg(test)]
mod replies;
#[cfg(test)]
mod values;
