//! What no clause says of gates: when they are asked and told, and that nodes really run at once.
ghost use Rattle.std.specs.Prelude.{◌≡◌, ◌<◌, ◌≤◌, ◌^◌};

use aegis_shell::Shell;
use dom_history::NodeLog;
use node_core::RunFault;
use node_threads::{Gate, OpenGate, make_posts, run_all};
use script_reader::{Script, read_script};
use script_runner::nodes_of;
use std::alloc::Global;
use std::sync::Wait;
use std::sync::atomic::{AtomicBool, AtomicU64, Ordering};
use std::test::Fail;
use std::thread;
use std::thread::Threads;
use uid_names::{NodeId, ProcId};

/// Two nodes, of each of which a process asks once for the length of an object on which it has no lock.
const TWO: &[u8] = b"node a\nnode b\nobject x 1 a\na.1 length x\nb.1 length x\n";

/// Three commands of one process, and two of another, at another node.
const FIVE: &[u8] =
    b"node a\nnode b\nobject x 1 b\na.1 lock x w\nb.1 length x\na.1 store x 0 \"s\"\na.1 unlock x\nb.1 length x\n";

/// One node.
const ONE: &[u8] = b"node a\nobject x 1 a\na.1 length x\n";

/// What came of the nodes of a script.
type Ran<'a> = Result<(Vec<NodeLog>, Vec<(ProcId, Shell<'a>)>), RunFault>;

/// Runs the nodes of a script, each in a thread of its own.
fn run<'a, K: Gate, R: Threads + Wait + Sync>(
    rt: &R,
    alloc: Global,
    script: &'a Script,
    gate: &K,
    last_tick: u64,
) -> Result<Ran<'a>, Fail>
    requires least { 1 ≤ last_tick }
    requires greatest { last_tick ≤ 2 ^ 40 }
{
    let nodes = nodes_of(alloc, script)?;
    let posts = make_posts(alloc, nodes, script.plan())?;
    Ok(run_all(rt, alloc, posts, gate, last_tick))
}

fn no() -> AtomicBool {
    AtomicBool::new(false)
}

/// Where a node stands among two.
fn place(proc: ProcId) -> usize
    ensures { result < 2 }
{
    usize::from(proc.node().number()) % 2
}

/// At the first call for a process it sets that process's flag, and looks for the other's; then it notes whether it saw that.
#[derive(Drop)]
struct Meeting {
    came: [AtomicBool; 2],
    saw: [AtomicBool; 2],
}

impl Gate for Meeting {
    fn may_begin(&self, proc: ProcId, _command: u32) -> bool {
        let own = place(proc);
        if self.came[own].swap(true, Ordering::SeqCst) {
            return true;
        }
        for _ in 0..10_000_000 {
            if self.came[1 - own].load(Ordering::SeqCst) {
                self.saw[own].store(true, Ordering::SeqCst);
                break;
            }
            thread::yield_now();
        }
        true
    }

    fn done(&self, _proc: ProcId, _command: u32) {}
}

/// A body that serves all nodes on one thread never lets the first call see the other's flag.
#[test]
fn two_nodes_run_at_once(rt: HostRuntime) -> Result<(), Fail> {
    let script = read_script(rt.alloc(), TWO)?;
    let meeting = Meeting {
        came: [no(), no()],
        saw: [no(), no()],
    };
    assert!(rt; run(&rt, rt.alloc(), &script, &meeting, 1 << 40)?.is_ok());
    assert!(rt; meeting.saw[0].load(Ordering::SeqCst));
    assert!(rt; meeting.saw[1].load(Ordering::SeqCst));
    Ok(())
}

/// Puts each command off some times, and notes what it was asked and told.
#[derive(Drop)]
struct Notes {
    /// How often it is asked in vain for each command: at most 1,000 times.
    vain: u64,
    asked: [AtomicU64; 2],
    told: [AtomicU64; 2],
    wrong: AtomicBool,
}

impl Notes {
    fn new(vain: u64) -> Notes {
        Notes {
            vain,
            asked: [AtomicU64::new(0), AtomicU64::new(0)],
            told: [AtomicU64::new(0), AtomicU64::new(0)],
            wrong: no(),
        }
    }
}

impl Gate for Notes {
    fn may_begin(&self, proc: ProcId, command: u32) -> bool {
        let own = place(proc);
        // It was told of all commands before this one.
        if self.told[own].load(Ordering::SeqCst).wrapping_add(1) != u64::from(command) {
            self.wrong.store(true, Ordering::SeqCst);
        }
        let vain = self.vain.min(1000);
        self.asked[own].fetch_add(1, Ordering::SeqCst) % (vain + 1) == vain
    }

    fn done(&self, proc: ProcId, command: u32) {
        let before = self.told[place(proc)].fetch_add(1, Ordering::SeqCst);
        if before.wrapping_add(1) != u64::from(command) {
            self.wrong.store(true, Ordering::SeqCst);
        }
    }
}

#[test]
fn a_gate_is_asked_before_each_begin_and_told_of_each_command(rt: HostRuntime) -> Result<(), Fail> {
    let script = read_script(rt.alloc(), FIVE)?;
    for vain in [1, 7, 1000] {
        let notes = Notes::new(vain);
        assert!(rt; run(&rt, rt.alloc(), &script, &notes, 1 << 40)?.is_ok());
        assert_eq!(rt; notes.told[1].load(Ordering::SeqCst), 3);
        assert_eq!(rt; notes.told[0].load(Ordering::SeqCst), 2);
        assert!(rt; !notes.wrong.load(Ordering::SeqCst));
    }
    Ok(())
}

#[test]
fn the_last_tick_ends_a_run(rt: HostRuntime) -> Result<(), Fail> {
    let script = read_script(rt.alloc(), ONE)?;
    let one = NodeId::new(1).ok_or("no node")?;
    match run(&rt, rt.alloc(), &script, &OpenGate, 1)? {
        Err(fault) => assert_eq!(rt; fault, RunFault::TickLimit(one)),
        Ok(_) => return Err("no fault".into()),
    }
    assert!(rt; run(&rt, rt.alloc(), &script, &OpenGate, 1000)?.is_ok());
    Ok(())
}

/// Where a node comes to the last tick all threads end.
#[test]
fn a_fault_ends_all_threads(rt: HostRuntime) -> Result<(), Fail> {
    let script = read_script(rt.alloc(), FIVE)?;
    for last_tick in 1..8 {
        assert!(rt; run(&rt, rt.alloc(), &script, &OpenGate, last_tick)?.is_err());
    }
    Ok(())
}
