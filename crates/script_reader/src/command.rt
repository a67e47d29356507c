//! The commands of a script.
use uid_names::{ByteList, Mode, NodeId};

/// A command of a process, one for each command word. Rooms and offsets are in pages and in bytes;
/// counts and the lengths of texts are in bytes. A path leads from the working directory, where it is relative.
#[derive(Debug)]
pub enum Command {
    /// Makes a file of this room, at the process's own node where no home is named.
    New {
        var: ByteList,
        room: u32,
        home: Option<NodeId>,
    },
    Lock {
        var: ByteList,
        mode: Mode,
    },
    Unlock {
        var: ByteList,
    },
    Delete {
        var: ByteList,
    },
    Load {
        var: ByteList,
        offset: u32,
        count: u32,
    },
    Store {
        var: ByteList,
        offset: u32,
        text: ByteList,
    },
    Length {
        var: ByteList,
    },
    Map {
        var: ByteList,
    },
    Unmap {
        var: ByteList,
    },
    /// Loads by address.
    Loadat {
        address: u32,
        count: u32,
    },
    /// Stores by address.
    Storeat {
        address: u32,
        text: ByteList,
    },
    /// Gives a variable the object to which a path leads.
    Bind {
        var: ByteList,
        path: ByteList,
    },
    /// Makes a file by a name, of the usual room where none is said.
    Crf {
        path: ByteList,
        room: Option<u32>,
    },
    /// Makes a directory by a name.
    Crd {
        path: ByteList,
    },
    /// Makes a link by a name, with the path that it stands for.
    Crl {
        path: ByteList,
        target: ByteList,
    },
    /// Removes a name and its object.
    Dlf {
        path: ByteList,
    },
    /// Reads the whole file.
    Catf {
        path: ByteList,
    },
    /// Counts the lines of a file.
    Lnf {
        path: ByteList,
    },
    /// Puts a text behind the end of a file.
    Apf {
        path: ByteList,
        text: ByteList,
    },
    /// Makes a file by a name, with the bytes of another.
    Cpf {
        path: ByteList,
        target: ByteList,
    },
    /// Makes a mailbox by a name.
    Crm {
        path: ByteList,
    },
    /// Puts a text of 1 to 120 bytes into a mailbox.
    Putm {
        path: ByteList,
        text: ByteList,
    },
    /// Takes the first text out of a mailbox.
    Takem {
        path: ByteList,
    },
    /// Lists a directory.
    Ld {
        path: ByteList,
    },
    /// Tells the working directory, after it was changed where a path is said.
    Wd {
        path: Option<ByteList>,
    },
    /// Lists the locks of a home.
    Llkob {
        node: NodeId,
    },
}

// Of its own, so that what drops one calls this and does not take it apart in place.
impl Drop for Command {
    fn drop(self) {
        match self {
            Command::New {
                var: _,
                room: _,
                home: _,
            }
            | Command::Lock { var: _, mode: _ }
            | Command::Unlock { var: _ }
            | Command::Delete { var: _ }
            | Command::Load {
                var: _,
                offset: _,
                count: _,
            }
            | Command::Store {
                var: _,
                offset: _,
                text: _,
            }
            | Command::Length { var: _ }
            | Command::Map { var: _ }
            | Command::Unmap { var: _ }
            | Command::Loadat {
                address: _,
                count: _,
            }
            | Command::Storeat {
                address: _,
                text: _,
            }
            | Command::Bind { var: _, path: _ }
            | Command::Crf { path: _, room: _ }
            | Command::Crd { path: _ }
            | Command::Crl { path: _, target: _ }
            | Command::Dlf { path: _ }
            | Command::Catf { path: _ }
            | Command::Lnf { path: _ }
            | Command::Apf { path: _, text: _ }
            | Command::Cpf { path: _, target: _ }
            | Command::Crm { path: _ }
            | Command::Putm { path: _, text: _ }
            | Command::Takem { path: _ }
            | Command::Ld { path: _ }
            | Command::Wd { path: _ }
            | Command::Llkob { node: _ } => {}
        }
    }
}
