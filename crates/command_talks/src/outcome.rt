//! What commands come to.
use dom_history::Reply;
use mapped_streams::StreamResult;
use naming_tree::NameResult;
use uid_names::ByteList;

/// What a command has come to.
#[derive(Drop)]
pub enum Outcome {
    /// What its operations answered together.
    Replied(Reply),
    /// What its name came to.
    Came(NameResult),
    /// What its file came to.
    Streamed(StreamResult),
    /// An answer that is written already.
    Written(ByteList),
}
