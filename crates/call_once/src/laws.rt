//! A law of the calls that were answered. It stands on a function without a body, so that the check proves it.
ghost use Rattle.std.specs.Prelude.{◌≡◌, Some, List, if◌then◌else◌};
ghost use Rattle.uid_names.specs.Names.{ProcName, same_proc};
ghost use Rattle.call_once.specs.Calls.{Call, call_of, with_call};

/// A call that is kept is its process's last one, and each other process has the last one that it had.
pub fn keeping_leaves_the_others<B>()
    ensures { (call : Call B) (calls : List (Call B)) (proc : ProcName) →
        call_of proc (with_call call calls) ≡ (if same_proc call.proc proc then Some call else call_of proc calls) }
{}
