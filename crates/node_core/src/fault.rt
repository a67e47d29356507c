//! Why a run of nodes has no end.
use thiserror::Error;
use uid_names::{NoMemory, NodeId};

/// Why a run has no end.
#[derive(Clone, Copy, Debug, PartialEq, Eq, Error)]
pub enum RunFault {
    /// An event gave this node the last tick.
    #[error("node {0:?} came to the last tick")]
    TickLimit(NodeId),
    #[error("no memory")]
    NoMemory,
}

impl From<NoMemory> for RunFault {
    ghost use Rattle.std.specs.Prelude.{◌≡◌};
    ghost use Rattle.node_core.specs.declared.fault.RunFault.TheVariants.{NoMemory as OutOfMemory};

    ghost from_gives = { λ _ e. e ≡ OutOfMemory };

    fn from(_error: NoMemory) -> RunFault {
        RunFault::NoMemory
    }
}
