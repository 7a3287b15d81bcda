//! Rows of standard input: which script is run, with which words and interfaces, and how the program must end.

/// What fails while a script is read or its transcript is printed.
#[derive(Clone, Copy)]
pub(crate) enum Fault {
    Nothing,
    /// The input fails behind the script's bytes.
    Input,
    /// The output fails behind the wanted bytes.
    Output,
}

/// A line of standard input.
#[derive(Clone, Copy)]
pub(crate) struct Row<'a> {
    pub(crate) name: &'a str,
    pub(crate) words: &'a str,
    pub(crate) status: u8,
    pub(crate) fault: Fault,
    /// The names of the interfaces that are handed in behind the program's own, with commas between them; empty where there is none.
    pub(crate) interfaces: &'a str,
}

/// What stands behind a row's status.
#[derive(Clone, Copy)]
struct Ending<'a> {
    fault: Fault,
    interfaces: &'a str,
}

/// What the word behind the status says.
fn fault_of(word: &str) -> Option<Fault> {
    match word {
        "" => Some(Fault::Nothing),
        "input" => Some(Fault::Input),
        "output" => Some(Fault::Output),
        _ => None,
    }
}

/// The status that a word is.
fn status_of(word: &str) -> Option<u8> {
    word.parse::<u8>().ok()
}

/// What the words behind the status say.
fn ending_of(words: &str) -> Option<Ending<'_>> {
    let (word, interfaces) = words.split_once("boxes=").unwrap_or((words, ""));
    Some(Ending {
        fault: fault_of(word.trim_end())?,
        interfaces,
    })
}

impl<'a> Row<'a> {
    /// The row that a line is.
    pub(crate) fn of(line: &'a str) -> Option<Row<'a>> {
        let (name, rest) = line.split_once(' ')?;
        let (words, ending) = rest.split_once(' ')?;
        let (status, behind) = ending.split_once(' ').unwrap_or((ending, ""));
        let Ending { fault, interfaces } = ending_of(behind)?;
        Some(Row {
            name,
            words,
            status: status_of(status)?,
            fault,
            interfaces,
        })
    }
}
