//! Pages of objects: a finite map from an object's counter and a page's number to the page's bytes.
#![tactic(auto)]

pub mod block_pages;
mod blocks;
pub mod laws;
pub mod list_pages;
pub mod pages;
mod places;

pub use block_pages::BlockPages;
pub use list_pages::ListPages;
pub use pages::Pages;
