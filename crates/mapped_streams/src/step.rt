//! What the machines ask and come to.
use dom_history::Reply;
use naming_tree::Step;
use uid_names::ByteList;

/// What a machine comes to.
#[derive(Drop, Debug)]
pub enum StreamResult {
    Bytes(ByteList),
    Fine,
    Count(u64),
    /// The first reply that refused an operation.
    Store(Reply),
}

/// What a stream says.
pub type StreamStep = Step<StreamResult>;
