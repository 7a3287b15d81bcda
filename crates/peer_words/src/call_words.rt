//! The messages that the words of commands ask for.
ghost use Rattle.std.specs.Prelude.{Bool, ◌≡◌, ◌<◌, ◌^◌, length, IfOk, IfErr, true, false, Some, None, Ok, Err, option_map, unwrap_or, if◌then◌else◌, [], ◌∷◌};
ghost use Rattle.wire_names.specs.Names.{is_bus_name, is_interface_name};
ghost use Rattle.wire_names.specs.BusName.{text_of};
ghost use Rattle.wire_names.specs.declared.error.NamesError.TheVariants as names;
ghost use Rattle.wire_message.specs.declared.error.Error.TheVariants as errors;
ghost use Rattle.wire_message.specs.declared.kind.MessageType.TheVariants as types;
ghost use Rattle.wire_number.specs.declared.endian.Endian.TheVariants as ends;
ghost use Rattle.wire_message.specs.BuilderView.{are_misplaced};
ghost use Rattle.peer_words.specs.BodyWord.{ReadsBody};
ghost use Rattle.peer_words.specs.CallMessage.{flags_number, is_outside, values_in, outgoing_builder, prepared_outgoing, prepared_reply, prepared_error};
ghost use Rattle.peer_words.specs.Made.{MakesBuilder, MakesOutgoing, IsCarried, prepared_with};

use crate::body_word::read_body;
use crate::words::{CallFlags, Outgoing, OutgoingKind};
use bitflags::Flags as _;
use std::alloc::{AllocError, Global};
use wire_message::{Builder, Error, Flags, Message, OutgoingMessage, Result};
use wire_value::{
    BodyValues, BusName, Bytes, Endian, ErrorName, InterfaceName, MemberName, Name, NameKind,
    NamesError, ObjectPath, VariantError,
};

/// The bus name of a text, if there is a text.
fn bus_name(text: &Option<Bytes>) -> Result<Option<BusName<'_>>>
    ensures ok { IfOk result (λ name. (option_map text_of name ≡ text.now) × (is_outside is_bus_name text.now ≡ false)) }
    ensures err { IfErr result (λ e. (e ≡ errors.Names names.Bus) × (is_outside is_bus_name text.now ≡ true)) }
{
    match text {
        None => Ok(None),
        Some(text) => match BusName::try_from_bytes(text.as_slice()) {
            Ok(name) => Ok(Some(name)),
            Err(error) => Err(Error::Names(error)),
        },
    }
}

/// The name of a text.
fn name<'a, K: NameKind>(text: &'a Bytes) -> Result<Name<'a, K>>
    ensures ok { IfOk result (λ name. (name ≡ text.now) × (K.is_name text.now ≡ true)) }
    ensures err { IfErr result (λ e. (e ≡ errors.Names K.refusal) × (K.is_name text.now ≡ false)) }
{
    match Name::try_from_bytes(text.as_slice()) {
        Ok(name) => Ok(name),
        Err(error) => Err(Error::Names(error)),
    }
}

/// The name of a text, if there is a text.
fn name_if<'a, K: NameKind>(text: &'a Option<Bytes>) -> Result<Option<Name<'a, K>>>
    ensures ok { IfOk result (λ name. (name ≡ text.now) × (is_outside K.is_name text.now ≡ false)) }
    ensures err { IfErr result (λ e. (e ≡ errors.Names K.refusal) × (is_outside K.is_name text.now ≡ true)) }
{
    match text {
        None => Ok(None),
        Some(text) => match name(text) {
            Ok(name) => Ok(Some(name)),
            Err(error) => Err(error),
        },
    }
}

/// The interface name of a text that must be there.
fn needed_interface(text: &Option<Bytes>) -> Result<InterfaceName<'_>>
    ensures ok { IfOk result (λ name. (text.now ≡ Some name) × (is_interface_name name ≡ true)) }
    ensures err { IfErr result (λ e. (e ≡ errors.Names names.Interface) × (is_interface_name (unwrap_or text.now []) ≡ false)) }
{
    match text {
        None => Err(Error::Names(NamesError::Interface)),
        Some(text) => name(text),
    }
}

/// The body of a word; without a word it is empty.
fn body_in(alloc: Global, word: &Option<Bytes>) -> Result<BodyValues>
    ensures { ReadsBody result (values_in word.now) }
{
    match word {
        Some(word) => read_body(alloc, word),
        None => empty_body(alloc),
    }
}

/// The body without values.
fn empty_body(alloc: Global) -> Result<BodyValues>
    ensures { ReadsBody result (Some []) }
{
    match BodyValues::from_values(alloc, Vec::new(alloc)) {
        Ok(body) => Ok(body),
        Err(error) => {
            // No types are a signature, so that nothing but memory was wanting.
            prove!(matches!(&error, VariantError::Memory));
            Err(Error::Memory)
        }
    }
}

/// With the destination that is given.
fn with_destination<'a>(builder: Builder<'a>, destination: &Option<BusName<'a>>) -> Builder<'a>
    requires { builder.fields.destination ≡ None }
    ensures { result ≡ record builder.entry { fields = record builder.entry.fields { destination = option_map text_of destination.now } } }
{
    match destination {
        Some(name) => builder.destination(name),
        None => builder,
    }
}

/// With the interface that is given.
fn with_interface<'a>(builder: Builder<'a>, interface: &Option<InterfaceName<'a>>) -> Builder<'a>
    requires { builder.fields.interface ≡ None }
    ensures { result ≡ record builder.entry { fields = record builder.entry.fields { interface = interface.now } } }
{
    match interface {
        Some(name) => builder.interface(name),
        None => builder,
    }
}

/// The flag where it is asked for, else none.
fn flag_if(asked: bool, flag: Flags) -> Flags
    ensures { result.0 ≡ (if asked then flag.0 else 0) }
{
    if asked { flag } else { Flags::empty() }
}

/// The flags of a script's letters.
#[tactic(auto, using(crate::proofs::Letters::or_flags))]
fn flags_of(flags: CallFlags) -> Flags
    ensures { result.0 ≡ flags_number flags }
{
    flag_if(flags.no_reply_expected, Flags::NoReplyExpected)
        .union(flag_if(flags.no_auto_start, Flags::NoAutoStart))
        .union(flag_if(flags.allow_interactive_auth, Flags::AllowInteractiveAuth))
}

fn order_of(big: bool) -> Endian
    ensures { result ≡ (if big then ends.Big else ends.Little) }
{
    if big { Endian::Big } else { Endian::Little }
}

/// With those flags, and in that byte order, where its type can have them.
fn with_letters<'a>(builder: Builder<'a>, flags: CallFlags) -> Result<Builder<'a>>
    requires none { builder.flags ≡ 0 }
    ensures { result ≡ (if are_misplaced builder.entry.kind (flags_number flags) then Err errors.InvalidField else Ok (record builder.entry { order = if flags.big then ends.Big else ends.Little; flags = flags_number flags })) }
{
    builder
        .endian(order_of(flags.big))
        .with_flags(flags_of(flags))
}

/// The list of descriptors: the one number 0 where it is asked for.
fn fds_of(alloc: Global, descriptor: bool) -> std::result::Result<Vec<u32>, AllocError>
    ensures value { IfOk result (λ fds. fds.items ≡ (if descriptor then 0 ∷ [] else [])) }
    ensures few { IfOk result (λ fds. length fds.items < 2 ^ 32) }
{
    let mut fds = Vec::new(alloc);
    if descriptor {
        fds.push(0)?;
    }
    Ok(fds)
}

/// The message with those letters and that body: refused where its type can't have the flags, then where it carries a
/// descriptor and the sink takes none.
fn with_body<'a>(
    alloc: Global,
    builder: Builder<'a>,
    body: BodyValues,
    flags: CallFlags,
    takes_fds: bool,
) -> Result<OutgoingMessage<'a>>
    requires none { builder.flags ≡ 0 }
    ensures makes { MakesOutgoing result (prepared_with builder.entry body flags takes_fds) }
    ensures carried { IfOk result (λ outgoing. IsCarried takes_fds outgoing) }
    ensures few { IfOk result (λ outgoing. length outgoing.fds < 2 ^ 32) }
{
    let builder = with_letters(builder, flags)?;
    if flags.descriptor && !takes_fds {
        return Err(Error::Unsupported);
    }
    let fds = fds_of(alloc, flags.descriptor)?;
    Ok(OutgoingMessage::new(builder, body, fds))
}

/// The header of a call, before its letters are looked at. Refused exactly where a word is outside its grammar, for the
/// first such word.
fn call_builder<'a>(words: &'a Outgoing) -> Result<Builder<'a>>
    ensures { MakesBuilder result (outgoing_builder OutgoingKind.Call None words.now) }
{
    let destination = bus_name(&words.destination)?;
    let path: ObjectPath<'_> = name(&words.path)?;
    let interface: Option<InterfaceName<'_>> = name_if(&words.interface)?;
    let member: MemberName<'_> = name(&words.member)?;
    let builder = with_destination(Message::method_call(&path, &member), &destination);
    Ok(with_interface(builder, &interface))
}

/// The header of a signal, before its letters are looked at. Refused exactly where a word is outside its grammar, for the
/// first such word.
fn signal_builder<'a>(words: &'a Outgoing) -> Result<Builder<'a>>
    ensures { MakesBuilder result (outgoing_builder OutgoingKind.Signal None words.now) }
{
    let destination = bus_name(&words.destination)?;
    let path: ObjectPath<'_> = name(&words.path)?;
    let interface = needed_interface(&words.interface)?;
    let member: MemberName<'_> = name(&words.member)?;
    Ok(with_destination(Message::signal(&path, &interface, &member), &destination))
}

/// The method call or signal of these words (D-Bus Specification, "Types of messages"), to a sink that takes descriptors or none; its
/// sender isn't set yet.
///
/// # Errors
///
/// The first that holds: Names exactly where a word is outside its grammar, by the first such word of destination, path, interface
/// (a signal must have one) and member; Variant(Malformed) exactly where the body's word is none; InvalidField exactly where a signal
/// has NoReplyExpected; Unsupported exactly where it carries a descriptor and the sink takes none. Memory for want of
/// memory.
pub fn outgoing_message<'a>(
    alloc: Global,
    words: &'a Outgoing,
    takes_fds: bool,
) -> Result<OutgoingMessage<'a>>
    ensures makes { MakesOutgoing result (prepared_outgoing None takes_fds words.now) }
    ensures carried { IfOk result (λ outgoing. IsCarried takes_fds outgoing) }
    ensures few { IfOk result (λ outgoing. length outgoing.fds < 2 ^ 32) }
{
    let builder = match words.kind {
        OutgoingKind::Call => call_builder(words)?,
        OutgoingKind::Signal => signal_builder(words)?,
    };
    let body = body_in(alloc, &words.body)?;
    with_body(alloc, builder, body, words.flags, takes_fds)
}

/// The method return to a message (D-Bus Specification, "Types of messages"), with the body of that word; its sender isn't set yet.
///
/// # Errors
///
/// Variant(Malformed) exactly where the body's word is none; Memory for want of memory.
pub fn reply_message<'a>(
    alloc: Global,
    message: &'a Message,
    body: &Option<Bytes>,
) -> Result<OutgoingMessage<'a>>
    ensures makes { MakesOutgoing result (prepared_reply None (Some message.now) body.now) }
    ensures carried { (takes : Bool) → IfOk result (λ outgoing. IsCarried takes outgoing) }
    ensures few { IfOk result (λ outgoing. length outgoing.fds < 2 ^ 32) }
{
    let body = body_in(alloc, body)?;
    let builder = Message::method_return(&message.header());
    Ok(OutgoingMessage::new(builder, body, Vec::new(alloc)))
}

/// The error of that name to a message (D-Bus Specification, "Types of messages"), with the body of that word; its sender isn't set yet.
///
/// # Errors
///
/// The first that holds: Names(Error) exactly where the name is no error name; Variant(Malformed) exactly where the body's word is
/// none. Memory for want of memory.
#[tactic(auto, unfolding(crate::specs::CallMessage::name_refusal))]
pub fn error_message<'a>(
    alloc: Global,
    message: &'a Message,
    error: &'a Bytes,
    body: &Option<Bytes>,
) -> Result<OutgoingMessage<'a>>
    ensures makes { MakesOutgoing result (prepared_error None (Some message.now) error.now body.now) }
    ensures carried { (takes : Bool) → IfOk result (λ outgoing. IsCarried takes outgoing) }
    ensures few { IfOk result (λ outgoing. length outgoing.fds < 2 ^ 32) }
{
    let error: ErrorName<'_> = name(error)?;
    let body = body_in(alloc, body)?;
    let builder = Message::error(&message.header(), &error);
    Ok(OutgoingMessage::new(builder, body, Vec::new(alloc)))
}
