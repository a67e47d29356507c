//! The texts of scripts, journals and answers: tokens of a line, numbers and quoted texts, both ways.
#![tactic(auto)]

pub mod cuts;
pub mod laws;
pub mod line;
mod names;
pub mod numbers;
mod quoted;
pub mod token;
pub mod write;

pub use cuts::{cut, cut_last};
pub use line::{TextFault, lend_tokens, tokens};
pub use names::{are_name_bytes, is_name};
pub use numbers::{BadNumber, decimal, hex8};
pub use token::{Token, TokenRef};
pub use write::{put_decimal, put_quoted};
