//! Prints messages as `dbus-monitor` does. Words are lines of the input, or arguments after `dump`: a match rule, which
//! has a `=`; `-`, a recording on standard input as `dbus-monitor --binary` writes it; or a recording in hexadecimal. A
//! message is printed if a rule before its recording matches it, or if there is none; one that isn't whole is left out.
//! Unlike `dbus-monitor` it prints no times and no facts of file descriptors, doubles exactly, and bytes in one line.

use anyhow::Result;
use rule_match::MatchRule;
use std::{io, num};
use wire_framing::{ReadHalf, Source, StdSource};
use wire_message::{Error, IoKind, Message, MessageType, Received, type_name};
use wire_value::{Numbers, Tree};

/// Prints the lines of values between two words.
#[cycle(value)]
fn print_list(rt: &HostRuntime, lead: &str, ends: [&str; 2], trees: &[Tree]) -> io::Result<()> {
    let inner = format!(in rt.alloc(); "{lead}   ")?;
    println!(rt; "{lead}{}", ends[0])?;
    for tree in trees {
        print_value(rt, &inner, tree)?;
    }
    println!(rt; "{lead}{}", ends[1])
}

/// Prints the lines of a value, with some spaces before each.
#[cycle(value)]
fn print_value(rt: &HostRuntime, lead: &str, tree: &Tree) -> io::Result<()> {
    let inner = format!(in rt.alloc(); "{lead}   ")?;
    match tree {
        Tree::U8(x) => println!(rt; "{lead}byte {x}"),
        Tree::Bool(x) => println!(rt; "{lead}boolean {x}"),
        Tree::I16(x) => println!(rt; "{lead}int16 {x}"),
        Tree::U16(x) => println!(rt; "{lead}uint16 {x}"),
        Tree::I32(x) => println!(rt; "{lead}int32 {x}"),
        Tree::U32(x) => println!(rt; "{lead}uint32 {x}"),
        Tree::I64(x) => println!(rt; "{lead}int64 {x}"),
        Tree::U64(x) => println!(rt; "{lead}uint64 {x}"),
        Tree::F64(bits) => println!(rt; "{lead}double {}", num::f64_from_bits_with_nan(*bits)),
        Tree::Str(text) => println!(rt; "{lead}string \"{}\"", text.as_str()),
        Tree::Path(text) => println!(rt; "{lead}object path \"{}\"", text.as_str()),
        Tree::Sig(text) => println!(rt; "{lead}signature \"{}\"", text.as_str()),
        Tree::Fd(_) => println!(rt; "{lead}file descriptor"),
        Tree::Variant(value) => {
            print!(rt; "{lead}variant ")?;
            print_value(rt, &inner, value.as_tree())
        }
        Tree::Array(_, items) => print_list(rt, lead, ["array [", "]"], items.as_slice()),
        Tree::Struct(fields) => print_list(rt, lead, ["struct {", "}"], fields.as_slice()),
        Tree::Dict(_, _, entries) => {
            println!(rt; "{lead}array [")?;
            for (key, value) in entries.as_slice() {
                println!(rt; "{inner}dict entry(")?;
                print_value(rt, &format!(in rt.alloc(); "{inner}   ")?, key)?;
                print_value(rt, &format!(in rt.alloc(); "{inner}   ")?, value)?;
                println!(rt; "{inner})")?;
            }
            println!(rt; "{lead}]")
        }
        Tree::Numbers(Numbers::Bytes(bytes)) if !bytes.is_empty() => {
            let digits = hex::encode(rt.alloc(), bytes.as_slice())?;
            println!(rt; "{lead}array of bytes [\n{inner}{digits}\n{lead}]")
        }
        Tree::Numbers(items) => print_list(rt, lead, ["array [", "]"], &items.trees(rt.alloc())?),
    }
}

/// Prints a message that a rule matches, or each message if there are no rules: its header in one line, and its values.
fn print_message(rt: &HostRuntime, rules: &[MatchRule], message: &Message) -> Result<()> {
    if !rules.is_empty() && !rules.iter().any(|rule| rule.matches(message)) {
        return Ok(());
    }
    let (header, body) = (message.header(), message.body().values(rt.alloc())?);
    let (serial, reply) = (message.serial_num(), message.reply_serial().unwrap_or(0));
    let from = message.shown_sender().unwrap_or("(null sender)");
    let to = header.destination();
    let to = to.as_ref().map_or("(null destination)", |it| it.as_str());
    let path = header.path().map_or("<none>", |path| path.as_str());
    let interface = header.interface().map_or("<none>", |name| name.as_str());
    let name = message.shown_name().unwrap_or("<none>");
    let word = type_name(message.message_type()).to_ascii_lowercase(rt.alloc())?;
    print!(rt; "{word} sender={from} -> destination={to}")?;
    match message.message_type() {
        MessageType::MethodReturn => println!(rt; " serial={serial} reply_serial={reply}")?,
        MessageType::Error => println!(rt; " error_name={name} reply_serial={reply}")?,
        _ => println!(rt; " serial={serial} path={path}; interface={interface}; member={name}")?,
    }
    for value in body.values() {
        print_value(rt, "   ", value.tree())?;
    }
    Ok(())
}

/// Prints the messages of a recording.
fn print_traffic<S: Source + Drop>(rt: &HostRuntime, rules: &[MatchRule], source: S) -> Result<()> {
    let mut half = ReadHalf::new(source);
    let mut kept = Vec::new(rt.alloc());
    for position in 1..u64::MAX {
        let received = half.receive_message(rt.alloc(), position, &mut kept);
        if matches!(&received, Err(Error::InputOutput(IoKind::Ended))) {
            break;
        }
        if let Received::Message(message) = &received? {
            print_message(rt, rules, message)?;
        }
    }
    Ok(())
}

/// Takes the words in order: a rule, or a recording, whose messages it prints.
pub(crate) fn run(rt: &HostRuntime, words: &[String]) -> Result<()> {
    let mut rules = Vec::new(rt.alloc());
    for word in words {
        match word.as_str() {
            rule if rule.contains('=') => rules.push(MatchRule::try_from(rt.alloc(), rule)?)?,
            "-" => print_traffic(rt, &rules, StdSource::new(rt.stdin()))?,
            text => print_traffic(rt, &rules, StdSource::new(&*hex::decode(rt.alloc(), text)?))?,
        }
    }
    Ok(())
}
