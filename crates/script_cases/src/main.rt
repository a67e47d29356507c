//! The program `script_cases`: tries scripts and the scripts of seeds against what tables say of them. Standard input names the
//! tables, one a line. Each is a file of rows, and for each row that is tried a line is printed, which says whether it is so.
//!
//! A row is a line of words and quoted texts, as lines of scripts are; `#` begins a comment. A PIECE is a quoted text, with a number
//! before it where it stands that often. COUNTS are how many nodes, objects, fates, phases and commands there are.
//!
//!     before PIECE..             these bytes stand before those of each row behind this one
//!     bad LINE "CAUSE" PIECE..   the bytes have their first bad line there, for that cause
//!     has COUNTS PIECE..         they are a script, which has so much
//!     seed SEED COUNTS WEIGHT    the script of the seed has so much, and all that its commands say is this number
//!     begins SEED COUNTS         the file `seed-SEED` is a script that has so much, and the script of the seed begins with it
#![tactic(auto)]

mod row;
mod scripts;
mod seeds;

use anyhow::Result;
use dom_text::{Token, tokens};
use row::{first_word, pieces};
use std::fs;
use uid_names::ByteList;

/// Whether what a row says of a script or of a seed is so; the bytes stand before those of the row.
fn is_so(rt: &HostRuntime, before: &[u8], kind: &[u8], row: &[Token]) -> Result<bool> {
    match kind {
        b"bad" => scripts::is_bad(rt.alloc(), before, row),
        b"has" => scripts::has(rt.alloc(), before, row),
        b"seed" => seeds::has(rt.alloc(), row),
        b"begins" => seeds::begins(rt, row),
        _ => anyhow::bail!("no such row"),
    }
}

/// Tries all rows of a table, and prints each with what comes of it.
fn try_table(rt: &HostRuntime, name: &str, table: &str) -> Result<()> {
    let mut before = ByteList::new(rt.alloc());
    for line in table.lines() {
        let found = tokens(rt.alloc(), line.as_bytes())?;
        let Some((kind, row)) = first_word(found.items()) else {
            continue;
        };
        if kind == b"before".as_slice() {
            before = pieces(rt.alloc(), b"", row)?;
        } else if is_so(rt, before.bytes(), kind, row)? {
            println!(rt; "{name}, so: {line}")?;
        } else {
            println!(rt; "{name}, not so: {line}")?;
        }
    }
    Ok(())
}

fn main(rt: HostRuntime) -> Result<()> {
    for line in rt.lines(rt.alloc()) {
        let name = line?;
        let table = fs::read_to_string(&rt, name.as_str())?;
        try_table(&rt, name.as_str(), table.as_str())?;
    }
    Ok(())
}
