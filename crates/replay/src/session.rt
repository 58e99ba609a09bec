//! A script at work: its calls, one after another, and what each answers.

ghost use Rattle.std.specs.Prelude.{◌≡◌, None};

use crate::engine::Engine;
use crate::error::Stop;
use crate::hand::{Hand, Open, put, put_back};
use crate::handles::Handles;
use crate::message::{HandleName, object_of, renamed};
use crate::print::{ShownArg, ShownHandle, ShownInfo};
use crate::script::{Asked, Call};
use client::connection::Round;
use client::error::CallError;
use client::next::NextAnswer;
use client::object::Notice;
use client::reads::{ReadAnswer, ResumeAnswer};
use client::requests::Request;
use client::settling::Settled;
use protocol::error::WaylandError;
use protocol::id::{ObjectId, ObjectInfo};
use protocol::refusal::Refusal;
use std::alloc::{AllocError, Global};
use std::io;
use transport::world::World;

/// A connection, what is in hand of it, and the handles that were printed.
pub struct Session<'t, E> {
    engine: Engine<'t, E>,
    hand: Hand,
    handles: Handles,
}

// What is not done: a refusal with its number.
fn refuse(rt: &impl Print, word: &str, refusal: Refusal) -> io::Result<()> {
    println!(rt; "{word} refused {}", refusal.number())
}

// What was done, or the refusal.
fn answer(rt: &impl Print, word: &str, outcome: Result<(), Refusal>) -> io::Result<()> {
    match outcome {
        Ok(()) => println!(rt; "{word} ok"),
        Err(refusal) => refuse(rt, word, refusal),
    }
}

fn tell_missing(rt: &impl Print) -> io::Result<()> {
    rt.println("no such handle")
}

impl<'t, E: World + Drop> Session<'t, E> {
    pub fn new(alloc: Global, engine: Engine<'t, E>, handles: Handles) -> Session<'t, E> {
        Session {
            engine,
            hand: Hand::new(alloc),
            handles,
        }
    }

    /// Ends the connection, and after it what is left in hand.
    pub fn close(self) {
        let Session {
            engine,
            hand,
            handles: _,
        } = self;
        hand.end(engine.close());
    }
}

impl<'t, E: World> Session<'t, E> {
    /// Carries a call out, and prints what it answers.
    pub fn obey<R: Print + AllocGlobal>(&mut self, rt: &R, call: &Call) -> Result<(), Stop> {
        match call {
            Call::Queue(queued) => match self.engine.deliver(queued) {
                Ok(true) => rt.println("queue ok")?,
                Ok(false) => rt.println("queue full")?,
                Err(refusal) => refuse(rt, "queue", refusal)?,
            },
            Call::Hangup => {
                self.engine.hang_up();
                rt.println("hangup ok")?;
            }
            Call::Prepare => self.prepare(rt)?,
            Call::Cancel => self.cancel(rt)?,
            Call::Read => self.read(rt)?,
            Call::Resume => self.resume(rt)?,
            Call::Settle(data) => self.settle(rt, *data)?,
            Call::Send(asked) => self.send(rt, asked)?,
            Call::Destroy(handle) => self.destroy(rt, *handle)?,
            Call::Get(handle) => self.get(rt, *handle)?,
            Call::Set(handle, data) => self.set(rt, *handle, *data)?,
            Call::Info(handle) => self.info(rt, *handle)?,
            Call::Flush => self.flush(rt)?,
        }
        Ok(())
    }

    // A handle that is about to be printed.
    fn show(&mut self, id: ObjectId) -> Result<ShownHandle<'t>, AllocError> {
        Ok(ShownHandle {
            name: self.handles.name(id)?,
            id,
            interface: self.engine.table.name(id.interface),
        })
    }

    fn show_info(&self, info: ObjectInfo) -> ShownInfo<'t> {
        ShownInfo {
            info,
            interface: self.engine.table.name(info.interface),
        }
    }

    fn notify(&mut self, rt: &impl Print, notice: Notice) -> Result<(), Stop> {
        let shown = self.show(notice.id)?;
        println!(rt; "notice {shown} {}", notice.data)?;
        Ok(())
    }

    fn prepare(&mut self, rt: &impl Print) -> Result<(), Stop> {
        self.hand.intents.reserve(1)?;
        match self.engine.prepare() {
            Ok(intent) => {
                put_back(&mut self.hand.intents, intent);
                rt.println("prepare ok")?;
            }
            Err(refusal) => refuse(rt, "prepare", refusal)?,
        }
        Ok(())
    }

    fn cancel(&mut self, rt: &impl Print) -> Result<(), Stop> {
        let Some(intent) = self.hand.intents.pop() else {
            rt.println("cancel none")?;
            return Ok(());
        };
        match self.engine.cancel(intent) {
            Ok(()) => rt.println("cancel ok")?,
            Err((refusal, intent)) => {
                put_back(&mut self.hand.intents, intent);
                refuse(rt, "cancel", refusal)?;
            }
        }
        Ok(())
    }

    fn resume(&mut self, rt: &impl Print) -> Result<(), Stop> {
        let Some(waiting) = self.hand.waiting.pop_front() else {
            rt.println("resume none")?;
            return Ok(());
        };
        match self.engine.resume(waiting) {
            Ok(ResumeAnswer::Waits(waiting)) => {
                self.hand.waiting.push_front(waiting)?;
                rt.println("waiting")?;
            }
            Ok(ResumeAnswer::Over) => rt.println("resume 0")?,
            Ok(ResumeAnswer::Fault(fault)) => println!(rt; "resume {}", self.engine.shown(fault))?,
            Err(refusal) => refuse(rt, "resume", refusal)?,
        }
        Ok(())
    }

    fn read<R: Print + AllocGlobal>(&mut self, rt: &R) -> Result<(), Stop> {
        // While a round is open no read is prepared.
        if self.hand.open.is_some() {
            rt.println("read none")?;
            return Ok(());
        }
        let Some(intent) = self.hand.intents.pop() else {
            rt.println("read none")?;
            return Ok(());
        };
        match self.engine.read(intent) {
            Ok(ReadAnswer::Waits(waiting)) => {
                self.hand.waiting.push_back(waiting)?;
                rt.println("waiting")?;
            }
            Ok(ReadAnswer::Round(round)) => self.go_on(rt, round)?,
            Ok(ReadAnswer::Fault(fault)) => println!(rt; "over {}", self.engine.shown(fault))?,
            Err((refusal, intent)) => {
                put_back(&mut self.hand.intents, intent);
                refuse(rt, "read", refusal)?;
            }
        }
        Ok(())
    }

    // Goes on with a round until an event is in hand or the round is over.
    fn go_on<R: Print + AllocGlobal>(&mut self, rt: &R, round: Round) -> Result<(), Stop>
        requires { self.old.hand.open ≡ None }
    {
        match self.engine.next_told(round) {
            Ok(
                NextAnswer::Handed {
                    event,
                    receiver,
                    opcode,
                },
            ) => {
                put(&mut self.hand.open, Open::Event(event));
                rt.println(self.event_line(rt.alloc(), receiver, opcode)?)?;
            }
            Ok(NextAnswer::Over(outcome)) => self.tell_over(rt, outcome)?,
            Ok(NextAnswer::Quiet(round)) => put(&mut self.hand.open, Open::Round(round)),
            Err((refusal, round)) => {
                put(&mut self.hand.open, Open::Round(round));
                refuse(rt, "read", refusal)?;
            }
        }
        Ok(())
    }

    fn tell_over(&self, rt: &impl Print, outcome: Result<u64, WaylandError>) -> io::Result<()> {
        match outcome {
            Ok(count) => println!(rt; "over {count}"),
            Err(fault) => println!(rt; "over {}", self.engine.shown(fault)),
        }
    }

    // The event whose arguments are in the rooms.
    fn event_line(
        &mut self,
        alloc: Global,
        receiver: ObjectId,
        opcode: u16,
    ) -> Result<String, AllocError> {
        let mut line = format!(in alloc; "event {} {opcode}", self.show(receiver)?)?;
        let Session {
            engine,
            handles,
            ..
        } = self;
        let table = engine.table;
        let desc = table.event(receiver.interface, opcode);
        let count = desc.map_or(0, |desc| desc.signature.len());
        for arg in engine.args.iter().take(count) {
            let id = object_of(*arg).unwrap_or(ObjectId::null());
            let shown = ShownHandle {
                name: handles.name(id)?,
                id,
                interface: table.name(id.interface),
            };
            let arg = renamed(*arg, shown);
            let text = engine.text.as_slice();
            write!(line, " {}", ShownArg { arg, text })?;
        }
        Ok(line)
    }

    fn settle<R: Print + AllocGlobal>(&mut self, rt: &R, data: u64) -> Result<(), Stop> {
        let event = match self.hand.open.take() {
            Some(Open::Event(event)) => event,
            Some(round) => {
                put(&mut self.hand.open, round);
                rt.println("settle none")?;
                return Ok(());
            }
            None => {
                rt.println("settle none")?;
                return Ok(());
            }
        };
        match self.engine.settle(event, data) {
            Ok(Settled { round, notice }) => {
                put(&mut self.hand.open, Open::Round(round));
                rt.println("settle ok")?;
                if let Some(notice) = notice {
                    self.notify(rt, notice)?;
                }
                self.go_on_from_hand(rt)
            }
            Err((refusal, event)) => {
                put(&mut self.hand.open, Open::Event(event));
                refuse(rt, "settle", refusal)?;
                Ok(())
            }
        }
    }

    // Goes on with the round in hand.
    fn go_on_from_hand<R: Print + AllocGlobal>(&mut self, rt: &R) -> Result<(), Stop> {
        match self.hand.open.take() {
            Some(Open::Round(round)) => self.go_on(rt, round)?,
            Some(event) => put(&mut self.hand.open, event),
            None => {}
        }
        Ok(())
    }

    fn send<R: Print + AllocGlobal>(&mut self, rt: &R, asked: &Asked) -> Result<(), Stop> {
        let args = self.handles.resolve(rt.alloc(), &asked.message)?;
        let (Some(sender), Some(args)) = (self.handles.find(asked.sender), args) else {
            tell_missing(rt)?;
            return Ok(());
        };
        let request = Request {
            sender,
            opcode: asked.opcode,
            args: &args,
            text: &asked.message.text,
            data: asked.data,
            child: asked.child,
        };
        match self.engine.send(&request) {
            Ok(sent) => {
                if let Some(notice) = sent.notice {
                    self.notify(rt, notice)?;
                }
                println!(rt; "send {}", self.show(sent.child)?)?;
            }
            Err(refusal) => refuse(rt, "send", refusal)?,
        }
        Ok(())
    }

    fn destroy(&mut self, rt: &impl Print, name: HandleName) -> Result<(), Stop> {
        let Some(handle) = self.handles.find(name) else {
            tell_missing(rt)?;
            return Ok(());
        };
        match self.engine.destroy(handle) {
            Ok(notice) => {
                self.notify(rt, notice)?;
                rt.println("destroy ok")?;
            }
            Err(refusal) => refuse(rt, "destroy", refusal)?,
        }
        Ok(())
    }

    fn get(&self, rt: &impl Print, name: HandleName) -> io::Result<()> {
        let Some(handle) = self.handles.find(name) else {
            return tell_missing(rt);
        };
        match self.engine.get(handle) {
            Ok(data) => println!(rt; "get {data}"),
            Err(refusal) => refuse(rt, "get", refusal),
        }
    }

    fn set(&mut self, rt: &impl Print, name: HandleName, data: u64) -> io::Result<()> {
        let Some(handle) = self.handles.find(name) else {
            return tell_missing(rt);
        };
        answer(rt, "set", self.engine.set(handle, data))
    }

    fn info(&self, rt: &impl Print, name: HandleName) -> io::Result<()> {
        let Some(handle) = self.handles.find(name) else {
            return tell_missing(rt);
        };
        match self.engine.info(handle) {
            Ok(info) => println!(rt; "info {}", self.show_info(info)),
            Err(refusal) => refuse(rt, "info", refusal),
        }
    }

    fn flush<R: Print + AllocGlobal>(&mut self, rt: &R) -> Result<(), Stop> {
        match self.engine.flush() {
            Ok(()) => rt.println("flush ok")?,
            Err(CallError::Fault(fault)) => println!(rt; "flush {}", self.engine.shown(fault))?,
            Err(CallError::Refused(refusal)) => refuse(rt, "flush", refusal)?,
        }
        for _ in 0..self.engine.sent_len() {
            rt.println(self.engine.collect(rt.alloc())?)?;
        }
        Ok(())
    }

    /// What is told at the end of a script.
    pub fn report<R: Print + AllocGlobal>(&mut self, rt: &R) -> Result<(), Stop> {
        if self.hand.has_event() {
            rt.println("unsettled")?;
        }
        match self.engine.last_fault() {
            None => rt.println("last none")?,
            Some(fault) => println!(rt; "last {}", self.engine.shown(fault))?,
        }
        for (place, id) in self.handles.printed().iter().enumerate() {
            let name = HandleName(place.saturating_add(2));
            rt.println(self.end_line(rt.alloc(), name, *id)?)?;
        }
        Ok(())
    }

    // What a handle still tells.
    fn end_line(
        &self,
        alloc: Global,
        name: HandleName,
        id: ObjectId,
    ) -> Result<String, AllocError> {
        let interface = self.engine.table.name(id.interface);
        let shown = ShownHandle {
            name,
            id,
            interface,
        };
        let mut line = format!(in alloc; "end {shown}")?;
        match self.engine.get(id) {
            Ok(data) => write!(line, " get {data}")?,
            Err(refusal) => write!(line, " get refused {}", refusal.number())?,
        }
        match self.engine.info(id) {
            Ok(info) => write!(line, " info {}", self.show_info(info))?,
            Err(refusal) => write!(line, " info refused {}", refusal.number())?,
        }
        Ok(line)
    }
}
