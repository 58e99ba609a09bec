//! Two buffered ends of one frame over a list end of one place.

ghost use Rattle.transport.specs.Ends.{Grounded};

use protocol::argument::{Argument, ArgumentType};
use protocol::error::TransportFault;
use protocol::id::ObjectId;
use protocol::refusal::Refusal;
use std::process::Abort;
use std::test::Fail;
use transport::buffered::BufferedEnd;
use transport::frame::{Frame, TakeError};
use transport::list_end::ListEnd;
use transport::outgoing::Outgoing;
use transport::transport::Transport;
use transport::world::World;

/// Puts a frame with one number. `relay` has the same: a program exports nothing that a test could call.
fn send<E: Transport>(end: &mut E, value: u32) -> Result<(), TransportFault> {
    let args = [Argument::Uint(value)];
    match Outgoing::new(1, 0, &args, &[]) {
        Ok(message) => end.put(&message),
        Err(_) => Ok(()),
    }
}

fn is_fault(r: Result<(), TransportFault>, layer: u32, code: u32) -> bool {
    matches!(r, Err(fault) if fault.layer == layer && fault.code == code)
}

/// The number in the first frame at the bottom, which is then collected.
fn collect_one<E: World>(end: &mut E) -> Option<u32> {
    let mut args = [Argument::Int(0); 20];
    let mut text = [0; 1024];
    let _ = end.sent_at(0)?.read(&mut args, &mut text);
    end.collect(1);
    match args[0] {
        Argument::Uint(value) => Some(value),
        _ => None,
    }
}

/// Three frames find a place, the fourth does not; once one is collected it does, and all come out in order.
fn fill_and_drain<E: Transport + World>(rt: &impl Abort, end: &mut E) {
    assert!(rt; send(end, 1).is_ok() && send(end, 2).is_ok() && send(end, 3).is_ok());
    assert!(rt;
        is_fault(send(end, 4), 1, TransportFault::TOO_BIG),
        "the layer above the list is full"
    );
    assert!(rt; is_fault(end.flush(), 0, TransportFault::WOULD_BLOCK));
    assert!(rt; collect_one(end) == Some(1));
    assert!(rt; send(end, 4).is_ok());
    assert!(rt; collect_one(end) == Some(2));
    assert!(rt;
        is_fault(end.flush(), 0, TransportFault::WOULD_BLOCK),
        "one of the two is still held"
    );
    assert!(rt; collect_one(end) == Some(3));
    assert!(rt; end.flush().is_ok());
    assert!(rt; collect_one(end) == Some(4));
    assert!(rt; collect_one(end) == None);
}

#[test]
fn two_buffers_over_a_list(rt: HostRuntime) -> Result<(), Fail> {
    let mut incoming = [Frame::EMPTY; 1];
    let mut outgoing = [Frame::EMPTY; 1];
    let list = ListEnd::new(&mut incoming, &mut outgoing);
    let Ok(lower) = BufferedEnd::new(list, 1) else {
        return Err(Fail::new("one frame is allowed"));
    };
    let Ok(mut end) = BufferedEnd::new(lower, 1) else {
        return Err(Fail::new("one frame is allowed"));
    };
    fill_and_drain(&rt, &mut end);
    Ok(())
}

#[test]
fn a_stop_comes_through(rt: HostRuntime) -> Result<(), Fail> {
    let mut incoming = [Frame::EMPTY; 1];
    let mut outgoing = [Frame::EMPTY; 1];
    let list = ListEnd::new(&mut incoming, &mut outgoing);
    let Ok(mut end) = BufferedEnd::new(list, 1) else {
        return Err(Fail::new("one frame is allowed"));
    };
    end.set_write_stop(Some(TransportFault::BROKEN_PIPE));
    assert!(rt; send(&mut end, 1).is_ok(), "the buffer has a place");
    assert!(rt; is_fault(send(&mut end, 2), 0, TransportFault::BROKEN_PIPE));
    assert!(rt; is_fault(end.flush(), 0, TransportFault::BROKEN_PIPE));
    Ok(())
}

#[test]
fn buffers_have_one_to_eight_frames(rt: HostRuntime) -> Result<(), Fail> {
    let mut incoming = [Frame::EMPTY; 1];
    let mut outgoing = [Frame::EMPTY; 1];
    let list = ListEnd::new(&mut incoming, &mut outgoing);
    let Err((refusal, list)) = BufferedEnd::new(list, 9) else {
        return Err(Fail::new("nine frames are too many"));
    };
    assert!(rt; refusal.number() == 12);
    assert!(rt; BufferedEnd::new(list, 0).is_err());
    Ok(())
}

/// What a take answers, given a text room that is large enough.
fn taken<E: Transport>(
    end: &mut E,
    signature: &[ArgumentType],
    places: &mut [Argument<ObjectId>],
) -> Result<usize, TakeError> {
    let mut text = [0; 1024];
    end.take(signature, places, &mut text)
}

#[test]
fn a_frame_that_does_not_fit_waits(rt: HostRuntime) -> Result<(), Fail> {
    let mut incoming = [Frame::EMPTY; 2];
    let mut outgoing = [Frame::EMPTY; 1];
    let mut list = ListEnd::new(&mut incoming, &mut outgoing);
    let mut places = [Argument::Int(0); 20];
    let mut few = [Argument::Int(0); 19];
    let args = [Argument::Uint(7)];
    assert!(rt;
        taken(&mut list, &[ArgumentType::Uint], &mut places) == Err(TakeError::Malformed),
        "none waits"
    );
    match Outgoing::new(1, 0, &args, &[]) {
        Ok(message) => assert!(rt; list.deliver(&message)),
        Err(_) => return Err(Fail::new("one argument is allowed")),
    }
    assert!(rt;
        taken(&mut list, &[ArgumentType::Int], &mut places) == Err(TakeError::Malformed),
        "another kind"
    );
    assert!(rt;
        taken(&mut list, &[], &mut places) == Err(TakeError::Malformed),
        "another count"
    );
    assert!(rt;
        taken(&mut list, &[ArgumentType::Uint], &mut few)
            == Err(TakeError::Refused(Refusal::BadRoom)),
        "a small room"
    );
    assert!(rt; taken(&mut list, &[ArgumentType::Uint], &mut places) == Ok(1));
    assert!(rt;
        taken(&mut list, &[ArgumentType::Uint], &mut places) == Err(TakeError::Malformed),
        "it is gone"
    );
    Ok(())
}

/// A frame kept beside an end, as an end of a caller's own may.
#[derive(Drop)]
struct Spare<'a> {
    end: ListEnd<'a>,
    frame: Frame,
}

// A type argument that holds a room by `&mut` and a frame.
fn keep(end: ListEnd<'_>) -> Option<Spare<'_>> {
    Some(Spare {
        end,
        frame: Frame::EMPTY,
    })
}

/// Flushes some end. Who calls through a `dyn` knows what the calls say, and no law of the trait.
fn flush_some(end: &mut dyn Transport) -> bool
    ensures { Grounded (means end.old) }
{
    end.flush().is_ok()
}

#[test]
fn a_frame_may_be_kept_beside_an_end(rt: HostRuntime) -> Result<(), Fail> {
    let mut incoming = [Frame::EMPTY; 1];
    let mut outgoing = [Frame::EMPTY; 1];
    let Some(Spare { mut end, mut frame }) = keep(ListEnd::new(&mut incoming, &mut outgoing)) else {
        return Err(Fail::new("a frame and an end are kept"));
    };
    let args = [Argument::Uint(7)];
    let Ok(message) = Outgoing::new(5, 6, &args, &[]) else {
        return Err(Fail::new("one argument is allowed"));
    };
    frame.set(&message);
    assert!(rt; end.put(&frame.message()).is_ok());
    assert!(rt; flush_some(&mut end));
    assert!(rt; collect_one(&mut end) == Some(7));
    Ok(())
}
