//! Charts of lanes: what happened in each of some lanes, from the top down, and arrows from one to another. A chart is drawn for
//! a terminal, or as a picture.
#![tactic(auto)]

mod arrows;
mod by_row;
mod cells;
pub mod chart;
mod cuts;
pub mod escape;
mod heads;
pub mod laws;
mod layout;
mod markup;
pub mod places;
pub mod svg;
pub mod text;
mod way;

pub use chart::{Arrival, Arrow, Chart, ChartRow, MOST_LANES, MOST_ROWS};
pub use escape::escaped;
pub use places::KeyedPlaces;
pub use svg::draw_svg;
pub use text::draw_text;
