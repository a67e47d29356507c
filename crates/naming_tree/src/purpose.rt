//! What the directory of a path's last name is looked for.

/// Whether a name is added to a directory, or dropped from it.
#[derive(Clone, Copy)]
pub enum Purpose {
    Adds,
    Drops,
}
