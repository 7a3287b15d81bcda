//! Two ends within the process.

use crate::test_support::{count_of, holds, send_behind};
use std::alloc::{AllocError, Global};
use std::sync::Wait;
use std::thread;
use wire_framing::{Channel, ReadHalf, Reader, Sink, Socket, Source, Split, WriteHalf, Writer};
use wire_message::Result as Answer;

/// The halves of an end.
type End<R> = Split<ReadHalf<Reader<R>>, WriteHalf<Writer<R>>>;

fn ends<R: Wait + Copy>(rt: R, alloc: Global) -> Result<(End<R>, End<R>), AllocError> {
    let (near, far) = Channel::pair(rt, alloc)?;
    Ok((near.split(), far.split()))
}

/// Whether, once both ends sent and the near one was closed, the far one reads what was sent to it and then the end, the
/// near one reads the end at once, and what is sent to it is passed over.
fn close_one<S: Source, W: Sink>(
    alloc: Global,
    near: &mut Split<ReadHalf<S>, WriteHalf<W>>,
    far: &mut Split<ReadHalf<S>, WriteHalf<W>>,
) -> Answer<bool> {
    send_behind(alloc, near.write_mut(), 0, 2)?;
    send_behind(alloc, far.write_mut(), 0, 1)?;
    near.write_mut().close()?;
    send_behind(alloc, far.write_mut(), 1, 41)?;
    let came = count_of(alloc, far.read_mut());
    Ok(came == Some(2) && count_of(alloc, near.read_mut()) == Some(0))
}

fn one_is_closed<R: Wait + Copy>(rt: R, alloc: Global) -> Answer<bool> {
    let (mut near, mut far) = ends(rt, alloc)?;
    close_one(alloc, &mut near, &mut far)
}

#[test]
fn until_one_is_closed(rt: HostRuntime) {
    assert!(rt; holds(one_is_closed(rt, rt.alloc())));
}

/// Sends the returns behind the 32nd, up to the 40th, and closes.
fn send_rest<W: Sink>(alloc: Global, half: &mut WriteHalf<W>) -> Answer<()> {
    send_behind(alloc, half, 32, 40)?;
    half.close()
}

#[test]
fn a_full_pipe_waits_for_its_reader(rt: HostRuntime) {
    let (mut near, far) = ends(rt, rt.alloc()).expect(&rt, "no memory");
    let (mut reads, _) = far.take();
    let is_full = send_behind(rt.alloc(), near.write_mut(), 0, 32).is_ok();
    let reader = thread::spawn(&rt, move || count_of(rt.alloc(), &mut reads)).expect(
        &rt,
        "no thread",
    );
    let is_sent = send_rest(rt.alloc(), near.write_mut()).is_ok();
    assert!(rt; is_full && is_sent && reader.join(&rt) == Some(40));
}

/// Sends one return, and lets the half go.
fn send_and_go<W: Sink + Drop>(alloc: Global, mut half: WriteHalf<W>) -> Answer<()> {
    send_behind(alloc, &mut half, 0, 1)
}

/// Whether one return came of a half that was let go, and what is sent to halves that are gone is passed over.
fn halves_go<R: Wait + Copy>(rt: R, alloc: Global) -> Answer<bool> {
    let (near, mut far) = ends(rt, alloc)?;
    let (reads, writes) = near.take();
    send_and_go(alloc, writes)?;
    let count = count_of(alloc, far.read_mut());
    drop(reads);
    send_behind(alloc, far.write_mut(), 0, 40)?;
    Ok(count == Some(1))
}

#[test]
fn halves_that_are_let_go(rt: HostRuntime) {
    assert!(rt; holds(halves_go(rt, rt.alloc())));
}
