//! Frames go down a stack of ends, are carried over to another end and taken there: the transport at work.
//!
//! Reads how many frames to send, and prints how many arrived and the sum of what they carry.
#![tactic(auto)]

use anyhow::anyhow;
use protocol::argument::{Argument, ArgumentType};
use protocol::error::TransportFault;
use protocol::id::ObjectId;
use transport::buffered::BufferedEnd;
use transport::frame::Frame;
use transport::list_end::ListEnd;
use transport::outgoing::Outgoing;
use transport::transport::Transport;
use transport::world::World;

/// How many frames the lists at the bottom hold.
const PLACES: usize = 16;

/// What has arrived so far.
#[derive(Clone, Copy, Default)]
struct Arrived {
    frames: u64,
    sum: u64,
}

impl Arrived {
    /// One more frame, and the number that it carries, if it carries one.
    fn add(&mut self, value: Option<u32>) {
        self.frames = self.frames.saturating_add(1);
        self.sum = self.sum.saturating_add(value.map_or(0, u64::from));
    }
}

/// Puts a frame that carries one number. The tests of the transport have the same: a program exports nothing.
fn send<E: Transport>(end: &mut E, value: u32) -> Result<(), TransportFault> {
    let args = [Argument::Uint(value)];
    match Outgoing::new(1, 0, &args, &[]) {
        Ok(message) => end.put(&message),
        Err(_) => Ok(()),
    }
}

/// Carries what has reached the bottom over to the other side, in order, as far as there are places.
fn carry<A: World, B: World>(from: &mut A, to: &mut B) {
    for _ in 0..from.sent_len() {
        let Some(frame) = from.sent_at(0) else {
            return;
        };
        if !to.deliver(&frame.message()) {
            return;
        }
        from.collect(1);
    }
}

/// The number that a frame carries, once its arguments are taken into a room.
fn carried(args: &[Argument<ObjectId>]) -> Option<u32> {
    match args {
        [Argument::Uint(value), ..] => Some(*value),
        _ => None,
    }
}

/// Takes every frame that waits, at most as many as there can be, into two rooms.
fn receive<E: Transport>(
    end: &mut E,
    args: &mut [Argument<ObjectId>],
    text: &mut [u8],
    arrived: &mut Arrived,
) {
    for _ in 0..PLACES {
        if end.take(&[ArgumentType::Uint], args, text).is_err() {
            return;
        }
        arrived.add(carried(args));
    }
}

/// Sends the numbers below `count` from one end to the other.
fn relay<A: World, B: World>(
    near: &mut A,
    far: &mut B,
    args: &mut [Argument<ObjectId>],
    text: &mut [u8],
    count: u32,
) -> Arrived {
    let mut arrived = Arrived::default();
    for value in 0..count {
        if send(near, value).is_err() {
            carry(near, far);
            receive(far, args, text, &mut arrived);
            let _ = send(near, value);
        }
    }
    // What is held comes down once the list is empty again.
    for _ in 0..2 {
        let _ = near.flush();
        carry(near, far);
        receive(far, args, text, &mut arrived);
    }
    arrived
}

fn run(rt: &HostRuntime) -> anyhow::Result<()> {
    let mut line = String::new(rt.alloc());
    rt.read_line(&mut line)?;
    let count = line.trim_end().parse::<u32>()?;
    let mut near_in = [Frame::EMPTY; PLACES];
    let mut near_out = [Frame::EMPTY; PLACES];
    let mut far_in = [Frame::EMPTY; PLACES];
    let mut far_out = [Frame::EMPTY; PLACES];
    let Ok(mut near) = BufferedEnd::new(ListEnd::new(&mut near_in, &mut near_out), 8) else {
        return Err(anyhow!("a buffer of 8 frames is refused"));
    };
    let mut far = ListEnd::new(&mut far_in, &mut far_out);
    let mut args = [Argument::Int(0); 20];
    let mut text = [0; 1024];
    let Arrived { frames, sum } = relay(&mut near, &mut far, &mut args, &mut text, count);
    println!(rt; "{count} frames sent, {frames} arrived, sum {sum}")?;
    Ok(())
}

fn main(rt: HostRuntime) -> anyhow::Result<()> {
    run(&rt)
}
