//! What can be sent again.
ghost use Rattle.std.specs.Prelude.{◌≡◌, IfOk};

use std::alloc::Global;
use uid_names::NoMemory;

/// What has a copy: a frame, or what carries one.
pub trait Copied: Drop {
    /// A copy. Only that of a page or of a list of locks takes memory.
    fn copy(&self, alloc: Global) -> Result<Self, NoMemory>
    where
        Self: Sized,
        ensures { IfOk result (λ copy. copy ≡ self.now) };
}
