//! Runs scripts through the program's call and prints how each ended.
//!
//! A line of standard input is a row: a script's name, the program's words (with commas between them, `-` for none) and
//! the status that is wanted. The file NAME.in is what the program reads, NAME.out what it must print. Where the word `input`
//! or `output` follows, the input fails behind those bytes, or the output does. Where `boxes=` and names with commas between
//! them follow, an interface of each name, which has nothing else, is handed in behind the program's own, from the number 6
//! on. Each script is given whole, a byte at a time and in thirds. At the end a peer is run by a call of its own, without
//! script text.
#![tactic(auto)]

mod row;
mod trial;
mod unscripted;

use row::Row;
use std::{fs, io};
use trial::{Ended, Wanted, ended_of};

/// The bytes of a script's file with that ending.
fn file(rt: &HostRuntime, name: &str, ending: &str) -> io::Result<Vec<u8>> {
    let path = format!(in rt.alloc(); "{name}.{ending}")?;
    fs::read(rt, path.as_str())
}

/// How the row's script ended.
fn run_row(rt: &HostRuntime, row: &Row<'_>) -> io::Result<Ended> {
    let input = file(rt, row.name, "in")?;
    let output = file(rt, row.name, "out")?;
    let wanted = Wanted {
        input: input.as_slice(),
        output: output.as_slice(),
        status: row.status,
        fault: row.fault,
        interfaces: row.interfaces,
    };
    Ok(ended_of(rt, row.words, &wanted)?)
}

/// Prints how it ended.
fn print_ended(rt: &HostRuntime, name: &str, ended: Ended) -> io::Result<()> {
    match ended {
        Ended::Wanted => println!(rt; "{name}: ok"),
        Ended::Status(status, wanted) => println!(rt; "{name}: status {status}, wanted {wanted}"),
        Ended::Output => println!(rt; "{name}: another output"),
    }
}

fn main(rt: HostRuntime) -> io::Result<()> {
    for line in rt.lines(rt.alloc()) {
        let line = line?;
        match Row::of(line.as_str()) {
            Some(row) => {
                let ended = run_row(&rt, &row)?;
                print_ended(&rt, row.name, ended)?;
            }
            None => println!(rt; "no row: {line}")?,
        }
    }
    unscripted::print_answers(&rt)
}
