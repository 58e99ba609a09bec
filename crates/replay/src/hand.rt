//! What a script has in hand: the tokens that its calls gave and take.

ghost use Rattle.std.specs.Prelude.{◌≡◌, ◌<◌, None, vec_len, vec_capacity};

use client::connection::{HandedEvent, ReadIntent, Round, WaitingRead};
use client::ending::Ended;
use std::alloc::Global;
use std::collections::VecDeque;

/// An open reading: a round that goes on, or an event to settle first.
pub enum Open {
    Round(Round),
    Event(HandedEvent),
}

/// The tokens in hand. They cannot be dropped: at the end of a script they end with its connection.
pub struct Hand {
    /// Prepared reads. They do not differ, so the last one serves for the oldest.
    pub intents: Vec<ReadIntent>,
    /// Reads that wait, oldest first.
    pub waiting: VecDeque<WaitingRead>,
    pub open: Option<Open>,
}

/// Puts what was taken, or what came instead, into an empty place.
pub fn put(place: &mut Option<Open>, open: Open)
    requires { place.old ≡ None }
{
    match place.replace(open) {
        None => {}
        Some(_other) => unreachable!(),
    }
}

/// Puts a prepared read back where one was taken.
pub fn put_back(intents: &mut Vec<ReadIntent>, intent: ReadIntent)
    requires { vec_len intents.old < vec_capacity intents.old }
{
    match intents.push(intent) {
        Ok(()) => {}
        Err(_failed) => unreachable!(),
    }
}

impl Hand {
    pub fn new(alloc: Global) -> Hand {
        Hand {
            intents: Vec::new(alloc),
            waiting: VecDeque::new(alloc),
            open: None,
        }
    }

    /// Whether an event is in hand.
    pub fn has_event(&self) -> bool {
        matches!(&self.open, Some(Open::Event(_)))
    }

    /// Ends what is left, once the connection has ended.
    pub fn end(self, ended: Ended) {
        let Hand {
            intents,
            waiting: _,
            open,
        } = self;
        let mut intents = intents;
        while let Some(intent) = intents.pop() {
            intent.end(ended);
        }
        intents.destroy_empty();
        match open {
            Some(Open::Round(round)) => round.end(ended),
            Some(Open::Event(event)) => event.end(ended),
            None => {}
        }
    }
}
