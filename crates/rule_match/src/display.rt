//! The text of a rule.
ghost use Rattle.std.specs.Prelude.{◌≡◌, ◌&&◌, ◌++◌, Some, map, option_map};
ghost use Rattle.std.specs.Fmt.{WritesOnOk};
ghost use Rattle.rule_match.specs.Part.{kind_word};
ghost use Rattle.wire_names.specs.BusName.{text_of_owned};
ghost use Rattle.rule_match.specs.Text.{component_text, argument_text, part_text, one, place_part, rule_text};
ghost use Rattle.rule_match.specs.Printing.{separator, joined, named};

use crate::arguments::Argument;
use crate::names::{namespace_of, text_of};
use crate::place::PathSpec;
use crate::rule::MatchRule;
use crate::sender::Sender;
use std::fmt;
use wire_message::MessageType;

fn kind_word(kind: MessageType) -> &'static str
    ensures { result.now ≡ kind_word kind }
{
    match kind {
        MessageType::MethodCall => "method_call",
        MessageType::MethodReturn => "method_return",
        MessageType::Error => "error",
        MessageType::Signal => "signal",
    }
}

/// The word of a type that is there.
fn kind_text(kind: Option<MessageType>) -> Option<&'static str>
    ensures { option_map (λ text. text.now) result ≡ option_map kind_word kind }
{
    match kind {
        Some(kind) => Some(kind_word(kind)),
        None => None,
    }
}

/// The text of a sender that is there.
fn sender_text(sender: &Option<Sender>) -> Option<&str>
    ensures { option_map (λ text. text.now) result ≡ option_map text_of_owned sender.now }
{
    match sender {
        Some(sender) => Some(sender.name().as_str()),
        None => None,
    }
}

fn separator(first: bool) -> &'static str
    ensures { result.now ≡ separator first }
{
    if first { "" } else { "," }
}

fn both(first: bool, absent: bool) -> bool
    ensures { result ≡ (first && absent) }
{
    first && absent
}

fn write_component<W: fmt::Write>(
    f: &mut fmt::Formatter<W>,
    first: bool,
    key: &str,
    value: &str,
) -> fmt::Result
    ensures { WritesOnOk W.write_str_gives f.old result (separator first ++ component_text key.now value.now) f.new }
{
    let comma = separator(first);
    write!(f, "{comma}{key}='{value}'")
}

fn write_text<W: fmt::Write>(
    f: &mut fmt::Formatter<W>,
    first: bool,
    key: &str,
    value: Option<&str>,
) -> fmt::Result
    ensures { WritesOnOk W.write_str_gives f.old result (joined first (named key.now (option_map (λ text. text.now) value.entry))) f.new }
{
    match value {
        Some(value) => write_component(f, first, key, value),
        None => Ok(()),
    }
}

fn write_place<W: fmt::Write>(
    f: &mut fmt::Formatter<W>,
    first: bool,
    place: &Option<PathSpec>,
) -> fmt::Result
    ensures { WritesOnOk W.write_str_gives f.old result (joined first (map part_text (one place_part place.now))) f.new }
{
    match place {
        Some(PathSpec::Path(path)) => write_component(f, first, "path", path.as_str()),
        Some(PathSpec::PathNamespace(path)) => {
            write_component(f, first, "path_namespace", path.as_str())
        }
        None => Ok(()),
    }
}

fn write_argument<W: fmt::Write>(
    f: &mut fmt::Formatter<W>,
    first: bool,
    argument: &Argument,
    end: &str,
) -> fmt::Result
    ensures { WritesOnOk W.write_str_gives f.old result (separator first ++ argument_text end.now argument.now) f.new }
{
    let comma = separator(first);
    let index = argument.index;
    let text = argument.text.as_str();
    write!(f, "{comma}arg{index}{end}='{text}'")
}

fn write_arguments<W: fmt::Write>(
    f: &mut fmt::Formatter<W>,
    first: bool,
    arguments: &[Argument],
    end: &str,
) -> fmt::Result
    ensures { WritesOnOk W.write_str_gives f.old result (joined first (map (argument_text end.now) arguments.now)) f.new }
{
    for (i, argument) in arguments.iter().enumerate() {
        write_argument(f, both(first, i == 0), argument, end)?;
    }
    Ok(())
}

/// The parts that are there, each as a key and a value between quotes, with commas between them.
impl fmt::Display for MatchRule {
    ghost output = { λ r. Some (rule_text r) };

    fn fmt<W: fmt::Write>(&self, f: &mut fmt::Formatter<W>) -> fmt::Result {
        write_text(f, true, "type", kind_text(self.kind))?;
        let first = self.kind.is_none();
        write_text(f, first, "sender", sender_text(&self.sender))?;
        let first = both(first, self.sender.is_none());
        write_text(f, first, "interface", text_of(&self.interface))?;
        let first = both(first, self.interface.is_none());
        write_text(f, first, "member", text_of(&self.member))?;
        let first = both(first, self.member.is_none());
        write_text(f, first, "destination", text_of(&self.destination))?;
        let first = both(first, self.destination.is_none());
        write_place(f, first, &self.path)?;
        let first = both(first, self.path.is_none());
        write_arguments(f, first, self.args.as_slice(), "")?;
        let first = both(first, self.args.as_slice().is_empty());
        write_arguments(f, first, self.arg_paths.as_slice(), "path")?;
        let first = both(first, self.arg_paths.as_slice().is_empty());
        write_text(f, first, "arg0namespace", namespace_of(&self.arg0ns))
    }
}
