//! What the program `domain_view` does: it shows runs of a script.
#![tactic(auto)]

mod asked;
mod counting;
mod differing;
pub mod host;
mod lanes;
mod reading;
mod searching;
pub mod showing;
mod words_asked;

pub use asked::{Asked, Compared, Numbers, Shown};
pub use host::Host;
pub use reading::Said;
pub use showing::{said_to, show};
