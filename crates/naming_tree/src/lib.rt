//! Names: the machines that walk directories and paths, and change directories.
#![tactic(auto)]

mod add_name;
mod adding;
mod addition;
mod by_path;
mod change_at;
mod changing;
mod drop_name;
mod ending;
pub mod laws;
mod list_at;
mod list_dir;
mod listing;
mod placed;
mod purpose;
mod reading;
mod removing;
mod session;
mod site;
mod step;
mod task;
mod to_parent;
mod walk;
mod walking;

pub use add_name::AddName;
pub use addition::Addition;
pub use change_at::ChangeAt;
pub use drop_name::DropName;
pub use list_at::ListAt;
pub use list_dir::ListDir;
pub use purpose::Purpose;
pub use site::Site;
pub use step::{NameResult, NameStep, Step, Walked, Within};
pub use to_parent::ToParent;
pub use walk::Walk;
