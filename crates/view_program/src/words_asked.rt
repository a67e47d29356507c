//! The words of the command line.
use crate::asked::{Asked, Compared, Numbers, Shown};
use clap::error::ErrorKind;
use clap::{Arg, ArgAction, ArgMatches, Command, Error, value_parser};
use std::alloc::Global;
use uid_names::{ByteList, ItemList, NoMemory};

/// A number that has to be said.
fn number<'a>(alloc: Global, id: &'a str, name: &'a str, help: &'a str) -> Arg<'a> {
    Arg::new(alloc, id)
        .value_name(name)
        .help(help)
        .required(true)
        .value_parser(value_parser!(u64))
}

/// A number behind the name of an option.
fn option<'a>(alloc: Global, id: &'a str, help: &'a str) -> Arg<'a> {
    Arg::new(alloc, id)
        .long(id)
        .value_name("NUMBER")
        .help(help)
        .value_parser(value_parser!(u64))
}

/// A name behind the name of an option.
fn name<'a>(alloc: Global, id: &'a str, help: &'a str) -> Arg<'a> {
    Arg::new(alloc, id).long(id).value_name("NAME").help(help)
}

/// The option that picks a run.
fn turns<'a>(alloc: Global) -> Arg<'a> {
    option(
        alloc,
        "turns",
        "The number of turns that picks the run, 0 without this; a journal behind the script picks its own",
    )
}

/// The option that says how wide lanes are drawn.
fn width<'a>(alloc: Global) -> Arg<'a> {
    option(
        alloc,
        "width",
        "So many characters wide; without this as wide as COLUMNS of the environment says, or 120",
    )
}

/// Adds the words that choose events.
fn with_choice<'a>(alloc: Global, command: Command<'a>) -> Result<Command<'a>, Error> {
    let page = Arg::new(alloc, "page")
        .long("page")
        .value_name("N")
        .help("Only what is done with this page of an object")
        .value_parser(value_parser!(u32));
    let command = command
        .arg(option(alloc, "from", "Only events from this tick on"))?
        .arg(option(alloc, "to", "Only events up to this tick"))?
        .arg(name(
            alloc,
            "object",
            "Only what is done with this object: its variable in the script, or its name",
        ))?
        .arg(page)?
        .arg(name(
            alloc,
            "command",
            "Only this command and all that was sent for it: the third of process a.1 is a.1.3",
        ))?;
    Ok(command)
}

fn lanes_command<'a>(alloc: Global) -> Result<Command<'a>, Error> {
    let svg = Arg::new(alloc, "svg")
        .long("svg")
        .help("Writes an SVG picture in place of text")
        .action(ArgAction::SetTrue);
    let command = Command::new(alloc, "lanes")
        .about("Draws the events of a run, a lane for each node and an arrow for each frame")
        .arg(turns(alloc))?
        .arg(svg)?
        .arg(width(alloc))?;
    with_choice(alloc, command)
}

fn diff_command<'a>(alloc: Global) -> Result<Command<'a>, Error> {
    let second = Arg::new(alloc, "second")
        .value_name("M")
        .help("The number that picks the second run; without it the runs are those of 0 and N")
        .value_parser(value_parser!(u64));
    let command = Command::new(alloc, "diff")
        .about(
            "Tells where the runs of two numbers of turns differ: the first event at which they part, the lanes around it, and the answers that are not the same",
        )
        .arg(number(
            alloc,
            "first",
            "N",
            "The number of turns that picks the first run; a journal behind the script is the first run, and then one number is enough",
        ))?
        .arg(second)?
        .arg(width(alloc))?;
    Ok(command)
}

fn counts_command<'a>(alloc: Global) -> Result<Command<'a>, Error> {
    let command = Command::new(alloc, "counts")
        .about(
            "Counts a run: its frames by link and kind, the pages that each node asked for, dropped and sent home, and how many events its commands took",
        )
        .arg(turns(alloc))?;
    Ok(command)
}

/// Adds the words for numbers of turns.
fn with_numbers<'a>(alloc: Global, command: Command<'a>) -> Result<Command<'a>, Error> {
    let command = command
        .arg(number(alloc, "first", "FIRST", "The first number of turns"))?
        .arg(number(alloc, "last", "LAST", "The last one, which is run too"))?
        .arg(option(
            alloc,
            "threads",
            "So many threads run them; one a processor without this",
        ))?;
    Ok(command)
}

fn explore_command<'a>(alloc: Global) -> Result<Command<'a>, Error> {
    let command = Command::new(alloc, "explore").about(
        "Tells what comes of the script under each number of turns: each outcome once, with how many numbers give it, the lowest of them, and the answers in which it differs from the commonest",
    );
    with_numbers(alloc, command)
}

fn find_command<'a>(alloc: Global) -> Result<Command<'a>, Error> {
    let command = Command::new(alloc, "find").about(
        "Finds the lowest number of turns whose journal has a line with these words in this order, and tells the line; status 1 where there is none",
    );
    let words = Arg::new(alloc, "words")
        .value_name("WORDS")
        .help("The words, each of which is one of the line's, as in: take b 3")
        .required(true)
        .action(ArgAction::Append)
        .num_args(1..);
    Ok(with_numbers(alloc, command)?.arg(words)?)
}

/// The program's words.
fn program<'a>(alloc: Global) -> Result<Command<'a>, Error> {
    let command = Command::new(alloc, "domain_view")
        .about("Shows runs of the script on standard input")
        .subcommand_required(true)
        .arg_required_else_help(true)
        .subcommand(lanes_command(alloc)?)?
        .subcommand(explore_command(alloc)?)?
        .subcommand(find_command(alloc)?)?
        .subcommand(diff_command(alloc)?)?
        .subcommand(counts_command(alloc)?)?;
    Ok(command)
}

/// The number behind an option.
fn said(matches: &ArgMatches<'_>, id: &str) -> Option<u64> {
    matches.get_one::<u64>(id)
}

/// A copy of the name behind an option.
fn named(alloc: Global, matches: &ArgMatches<'_>, id: &str) -> Result<Option<ByteList>, NoMemory> {
    match matches.get_str(id) {
        Some(name) => Ok(Some(ByteList::from_slice(alloc, name.as_bytes())?)),
        None => Ok(None),
    }
}

/// Which events are shown, and how.
fn shown(alloc: Global, matches: &ArgMatches<'_>) -> Result<Shown, NoMemory> {
    Ok(Shown {
        is_picture: matches.get_flag("svg"),
        width: said(matches, "width"),
        from: said(matches, "from"),
        to: said(matches, "to"),
        object: named(alloc, matches, "object")?,
        page: matches.get_one::<u32>("page"),
        command: named(alloc, matches, "command")?,
    })
}

/// The two numbers whose runs are compared: the first is 0 where one is said.
fn compared(matches: &ArgMatches<'_>) -> Compared {
    let one = said(matches, "first").unwrap_or(0);
    let (first, second) = match said(matches, "second") {
        Some(other) => (one, other),
        None => (0, one),
    };
    Compared {
        first,
        second,
        width: said(matches, "width"),
    }
}

/// The numbers that are said; None where the last is below the first or too great to have one behind it.
fn numbers(matches: &ArgMatches<'_>) -> Option<Numbers> {
    let first = said(matches, "first")?;
    let end = said(matches, "last")?.checked_add(1)?;
    if end < first {
        return None;
    }
    Some(Numbers {
        first,
        end,
        threads: said(matches, "threads"),
    })
}

/// Copies of the words that are looked for.
fn looked_for(alloc: Global, matches: &ArgMatches<'_>) -> Result<ItemList<ByteList>, NoMemory> {
    let mut words = ItemList::new(alloc);
    for word in matches.get_strs("words").unwrap_or(&[]) {
        words.push(ByteList::from_slice(alloc, word.as_bytes())?)?;
    }
    Ok(words)
}

/// What a subcommand asks for; None where its numbers are not taken.
fn asked_by(
    alloc: Global,
    name: &str,
    matches: &ArgMatches<'_>,
) -> Result<Option<Asked>, NoMemory> {
    if name == "lanes" {
        let turns = said(matches, "turns").unwrap_or(0);
        return Ok(Some(Asked::Lanes(turns, shown(alloc, matches)?)));
    }
    if name == "counts" {
        let turns = said(matches, "turns").unwrap_or(0);
        return Ok(Some(Asked::Counts(turns)));
    }
    if name == "diff" {
        return Ok(Some(Asked::Diff(compared(matches))));
    }
    let Some(numbers) = numbers(matches) else {
        return Ok(None);
    };
    if name == "find" {
        return Ok(Some(Asked::Find(numbers, looked_for(alloc, matches)?)));
    }
    Ok(Some(Asked::Explore(numbers)))
}

/// What these words ask for, the program's name first; or what is said of words that are not taken, or that ask for help.
pub(crate) fn asked(alloc: Global, words: &[String]) -> Result<Asked, Error> {
    let mut command = program(alloc)?;
    let matches = command.try_get_matches_from_mut(words)?;
    let said = match matches.subcommand() {
        Some((name, said)) => asked_by(alloc, name, said),
        None => Ok(None),
    };
    match said {
        Ok(Some(asked)) => Ok(asked),
        Ok(None) => Err(command.error(
            ErrorKind::ValueValidation,
            "LAST is below FIRST, or too great",
        )?),
        Err(NoMemory) => Err(Error::from(std::alloc::AllocError)),
    }
}
