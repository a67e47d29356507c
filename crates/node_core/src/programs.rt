//! The programs of a node's processes.
ghost use Rattle.std.specs.Prelude.{◌≡◌, ◌≢◌, ◌++◌, [], ◌∷◌, ℕ, ◌<◌, true, false, is_some, option_to_list, Option, Some, None, IsSome, IfSome, IfNone, IfOk, OnOk, OnErr, length, option_copied};
ghost use Rattle.std.specs.Option.{option_map};
ghost use Rattle.dom_history.specs.Ranges.{IsWant};
ghost use Rattle.dom_history.specs.Programs.{FitsWant};
ghost use Rattle.node_runs.specs.Setups.{ArePrograms};
ghost use Rattle.node_core.specs.Programs.{program_in, numbers_in, IsFirstAt, one_of, rising_in};

use dom_history::{Program, Reply, Want};
use std::alloc::Global;
use uid_names::NoMemory;

/// The program of a process.
pub(crate) fn program_of<P: Program>(programs: &[(u8, P)], proc: u8) -> Option<&P>
    ensures { option_copied result ≡ program_in programs.now proc }
{
    match place_of(programs, proc) {
        Some(i) => Some(&programs[i].1),
        None => None,
    }
}

/// Where the program of a process stands.
fn place_of<P: Program>(programs: &[(u8, P)], proc: u8) -> Option<usize>
    ensures there { IfSome result (λ i. IsFirstAt programs.now proc i) }
    ensures bound { IfSome result (λ i. i < length programs.now) }
    ensures none { IfNone result (program_in programs.now proc ≡ None) }
{
    for i in 0..programs.len() {
        if programs[i].0 == proc {
            return Some(i);
        }
    }
    None
}

/// Whether a process has a program.
pub(crate) fn has_program<P: Program>(programs: &[(u8, P)], proc: u8) -> bool
    ensures { result ≡ is_some (program_in programs.now proc) }
{
    stands_by_number(programs, proc) || program_of(programs, proc).is_some()
}

/// Whether the program of a process stands at the place of its number, as it does where each process has one: so it is found
/// with no search.
fn stands_by_number<P: Program>(programs: &[(u8, P)], proc: u8) -> bool
    ensures { result ≡ true → is_some (program_in programs.now proc) ≡ true }
{
    let number = usize::from(proc);
    if number < 1 || programs.len() < number {
        return false;
    }
    programs[number - 1].0 == proc
}

/// Tells a process's program a reply, or that a phase begins, and puts what it wants then in the place of what it wanted.
/// Without memory the program is spent.
pub(crate) fn tell<P: Program>(
    alloc: Global,
    programs: &mut Vec<(u8, P)>,
    proc: u8,
    last: Option<&Reply>,
    want: &mut Want,
) -> Result<(), NoMemory>
    requires there { IsSome (program_in programs.old.items proc) }
    requires whole { IfSome (program_in programs.old.items proc) (λ x. P.spent x ≡ false) }
    requires fits { IfSome (program_in programs.old.items proc) (λ x. FitsWant (P.wants x) (option_copied last)) }
    ensures program { OnOk result (program_in programs.new.items proc
        ≡ option_map (λ x. P.becomes x (option_copied last.entry)) (program_in programs.old.items proc)) }
    ensures others { OnOk result ((q : ℕ) → q ≢ proc → program_in programs.new.items q ≡ program_in programs.old.items q) }
    ensures numbers { OnOk result (numbers_in programs.new.items ≡ numbers_in programs.old.items) }
    ensures whole { OnOk result (IfSome (program_in programs.new.items proc) (λ x. P.spent x ≡ false)) }
    ensures want { OnOk result (IfSome (program_in programs.new.items proc) (λ x. P.wants x ≡ want.new)) }
    ensures range { OnOk result (IsWant want.new) }
{
    match place_of(programs.as_slice(), proc) {
        Some(i) => {
            *want = programs[i].1.next(alloc, last)?;
            Ok(())
        }
        None => unreachable!(),
    }
}

/// Takes a process's program out.
fn take_program<P: Program>(programs: &mut Vec<(u8, P)>, proc: u8) -> Option<(u8, P)>
    ensures one { result ≡ option_map (λ x. (proc, x)) (program_in programs.old.items proc) }
    ensures others { (q : ℕ) → q ≢ proc → program_in programs.new.items q ≡ program_in programs.old.items q }
{
    match place_of(programs.as_slice(), proc) {
        Some(i) => Some(programs.remove(i)),
        None => None,
    }
}

/// Puts a process's program last, if it has one.
fn put_program<P: Program>(
    programs: &mut Vec<(u8, P)>,
    sorted: &mut Vec<(u8, P)>,
    proc: u8,
) -> Result<(), NoMemory>
    ensures sorted { OnOk result (sorted.new.items ≡ sorted.old.items ++ one_of proc (program_in programs.old.items proc)) }
    ensures others { OnOk result ((q : ℕ) → q ≢ proc → program_in programs.new.items q ≡ program_in programs.old.items q) }
{
    if let Some(program) = take_program(programs, proc) {
        sorted.push(program)?;
    }
    Ok(())
}

/// The programs by rising number.
pub(crate) fn rising<P: Program>(
    alloc: Global,
    mut programs: Vec<(u8, P)>,
) -> Result<Vec<(u8, P)>, NoMemory>
    ensures { IfOk result (λ sorted. sorted.items ≡ rising_in programs.items) }
{
    let mut sorted = Vec::new(alloc);
    put_program(&mut programs, &mut sorted, 1)?;
    put_program(&mut programs, &mut sorted, 2)?;
    put_program(&mut programs, &mut sorted, 3)?;
    put_program(&mut programs, &mut sorted, 4)?;
    Ok(sorted)
}
