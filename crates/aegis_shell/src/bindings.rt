//! The variables of a process.
ghost use Rattle.std.specs.Prelude.{◌≡◌, [], OnOk};
ghost use Rattle.aegis_shell.specs.Bindings.{object_at, rebound};

use std::alloc::Global;
use std::collections::BTreeMap;
use std::marker::Model;
use uid_names::{NoMemory, Uid};

/// The variables that stand for objects, each with the object that it stands for last.
#[derive(Drop)]
pub struct Bindings {
    objects: BTreeMap<Vec<u8>, Uid>,
}

impl Model for Bindings {
    ghost use Rattle.std.specs.Prelude.{List, ℕ, map};
    ghost use Rattle.aegis_shell.specs.Bindings.{Rows};

    ghost Value = { Rows };

    ghost view = { λ b. map (λ e. (e.0.items, e.1)) b.objects.entries };
}

impl Bindings {
    /// No variable stands for an object. Takes no memory.
    pub fn new(alloc: Global) -> Bindings
        ensures { result ≡ [] }
    {
        Bindings {
            objects: BTreeMap::new(alloc),
        }
    }

    /// The object that a variable stands for. Takes no memory.
    pub fn object(&self, var: &[u8]) -> Option<Uid>
        ensures { result ≡ object_at self.now var.now }
    {
        self.objects.get(var).copied()
    }

    /// The variable stands for this object from now on.
    pub fn bind(&mut self, alloc: Global, var: &[u8], uid: Uid) -> Result<(), NoMemory>
        ensures { OnOk result (self.new ≡ rebound var.now uid self.old) }
    {
        let var = Vec::from_slice(alloc, var)?;
        self.objects.insert(var, uid)?;
        Ok(())
    }
}
