//! Laws of what commands ask. Each body names the laws below that its proof stands on.
ghost use Rattle.std.specs.Prelude.{◌≡◌, ℕ, false, Option, Some, None, List, All};
ghost use Rattle.std.specs.List.{AllByRecursion};
ghost use Rattle.uid_names.specs.Names.{ObjectName, ProcName, IsName};
ghost use Rattle.uid_names.specs.declared.lock_row.LockRow.{LockRow};
ghost use Rattle.dom_history.specs.Ranges.{IsNodeNumber};
ghost use Rattle.script_reader.specs.Scripts.{Content, IsContent};
ghost use Rattle.script_reader.specs.declared.command.Command.{Command};
ghost use Rattle.naming_tree.specs.declared.site.Site.{Site};
ghost use Rattle.naming_tree.specs.declared.step.NameResult.{NameResult};
ghost use Rattle.command_talks.specs.Checks.{check_of};
ghost use Rattle.command_talks.specs.Commands.{Row, dialogue_for, row_of};
ghost use Rattle.command_talks.specs.Files.{fails_of};
ghost use Rattle.command_talks.specs.Ranges.{IsRanged};
ghost use Rattle.command_talks.specs.Sources.{Sourced, Targeted};
ghost use Rattle.command_talks.specs.declared.check.Check.{Check};
ghost use Rattle.command_talks.specs.declared.check.Subject.{Subject};
ghost use Rattle.command_talks.specs.declared.errand.Errand.{Errand};
ghost use Rattle.command_talks.specs.declared.outcome.Outcome.{Outcome};
ghost use Rattle.aegis_shell.specs.Asking.{last_row};
ghost use Rattle.aegis_shell.specs.Outcomes.{bound_by, standing_after};
ghost use Rattle.aegis_shell.specs.Standing.{Standing, first_standing, site_of};
ghost use Rattle.aegis_shell.specs.Work.{Job, Part, guard_of, jobs_of, part_of};
ghost use Rattle.command_ranges.specs.Checking.{AsksInTurn, AsksOfNoList, CommandGoesByFinding, GoesByFinding, IsCheckedBehindWalk, IsTargetChecked, TargetAsksOfNoList, held_by};
ghost use Rattle.command_ranges.specs.Naming.{IsNamedOutcome, IsNamedRow, plainly_bound, plainly_last};
ghost use Rattle.command_ranges.specs.Telling.{AsksInRange};
ghost use Rattle.command_ranges.specs.Talking.{IsSite, IsUnguarded};

/// The dialogue of a command such as a script can have asks only operations in their ranges, whatever fits it was told before; and what it
/// finds or makes has a name.
pub fn commands_ask_in_their_ranges()
    ensures { (who : Option Subject) (site : Site) (dir : ObjectName) (command : Command) → IsSite site → IsName dir → IsRanged command →
        AsksInRange IsNamedOutcome (dialogue_for who site dir command) }
{}

/// So no guard of a shell acts at a command of a script: it goes as its dialogue does, to the end.
pub fn no_guard_of_a_shell_acts()
    ensures { (s : Content) (p : ProcName) → IsContent s → IsNodeNumber p.node →
        All (λ (job : Job). IsUnguarded (guard_of s p) (site_of (part_of s p)) job.command) (jobs_of s p) }
{
    commands_ask_in_their_ranges();
}

/// A process begins in a directory that has a name, and its commands lead it to such alone. So no guard of names acts: what was made or
/// found is bound, and a list of locks goes on behind its last row.
pub fn no_guard_of_names_acts()
    ensures first { (s : Content) (p : ProcName) → IsNodeNumber p.node → IsName (first_standing (part_of s p)).working.dir }
    ensures behind { (part : Part) (command : Command) (outcome : Outcome) (at : Standing) → IsName at.working.dir → IsNamedOutcome outcome →
        IsName (standing_after part command outcome at).working.dir }
    ensures bound { (command : Command) (outcome : Outcome) → IsNamedOutcome outcome → bound_by command outcome ≡ plainly_bound command outcome }
    ensures listed { (rows : List LockRow) → AllByRecursion IsNamedRow rows → last_row rows ≡ plainly_last rows }
{}

/// Behind the walk of a command whose process has a subject, what its check finds decides: without a list the command goes on; with one it goes on, or ends with
/// its answer once what it has opened is closed, as the list's bytes say; and what stands in the check's way is its answer. The target of a copy has a check of its own.
pub fn lists_decide_of_commands()
    ensures found { (who : Subject) (errand : Errand) (come : NameResult) (c : Check) → check_of errand come ≡ Some c → GoesByFinding who errand come c }
    ensures stopped { (errand : Errand) (outcome : Outcome) → AsksInTurn (held_by errand) outcome (fails_of errand outcome) }
    ensures walked { (guard : Option Subject) (site : Site) (dir : ObjectName) (command : Command) (r : Row) → row_of command ≡ Some r → IsCheckedBehindWalk guard site dir command r }
    ensures filled { (target : Targeted) (s : Sourced) → IsTargetChecked target s }
    ensures whole { (who : Subject) (site : Site) (dir : ObjectName) (command : Command) (r : Row) → row_of command ≡ Some r → CommandGoesByFinding who site dir command r }
{}

/// A script without a line `access` asks what it would ask if there were no lists: what stands behind the walk, and no more.
pub fn without_lists_nothing_is_checked()
    ensures script { (s : Content) (p : ProcName) → s.access ≡ false → guard_of s p ≡ None }
    ensures command { (site : Site) (dir : ObjectName) (path : List ℕ) (errand : Errand) → AsksOfNoList site dir path errand }
    ensures copied { (target : Targeted) (s : Sourced) → TargetAsksOfNoList target s }
{}
