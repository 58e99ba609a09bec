//! A connection over a stack of two buffered ends that fills up: two frames above one above a list with one place.
//!
//! Each line tells of a request that was accepted, and what a flush answers then. Nobody collects what is sent, so the fifth
//! request meets a full stack: its callback is given all the same, and the fault is stored.
#![tactic(auto)]

use anyhow::anyhow;
use client::connection::Connection;
use client::error::CallError;
use client::object::Object;
use client::requests::Request;
use protocol::argument::Argument;
use protocol::core_interfaces::core_interfaces;
use protocol::error::WaylandError;
use protocol::id::ObjectId;
use protocol::table::InterfaceTable;
use std::io;
use transport::buffered::BufferedEnd;
use transport::frame::Frame;
use transport::list_end::ListEnd;
use transport::transport::Transport;

/// How many requests are sent: one more than the stack holds.
const REQUESTS: u64 = 5;

/// The slots of a connection.
#[derive(Drop)]
struct Slots {
    client: [Option<Object>; 8],
    server: [Option<Object>; 1],
}

// What a flush answers.
fn flushed(rt: &HostRuntime, outcome: Result<(), CallError>) -> io::Result<()> {
    match outcome {
        Ok(()) => rt.println("all is passed on"),
        Err(CallError::Fault(WaylandError::Io(fault))) => {
            println!(rt; "code {} in layer {}", fault.code, fault.layer)
        }
        Err(CallError::Fault(WaylandError::Protocol(_))) => rt.println("a fault of the protocol"),
        Err(CallError::Refused(refusal)) => println!(rt; "refused: {refusal}"),
    }
}

// Sends one `sync` after another; the callbacks get the data numbers from 1 up.
fn fill<E: Transport>(
    rt: &HostRuntime,
    connection: &mut Connection,
    table: &InterfaceTable<'_>,
    slots: &mut Slots,
    end: &mut E,
) -> io::Result<()> {
    let args = [Argument::NewId(ObjectId::null())];
    for data in 1..=REQUESTS {
        let request = Request {
            sender: ObjectId::display(),
            opcode: 0,
            args: &args,
            text: &[],
            data,
            child: None,
        };
        match connection.send_request(table, &mut slots.client, &mut slots.server, end, &request) {
            Ok(sent) => print!(rt; "callback {}: ", sent.child.number)?,
            Err(refusal) => print!(rt; "refused, {refusal}: ")?,
        }
        flushed(rt, connection.flush(&slots.client, &slots.server, end))?;
    }
    Ok(())
}

fn main(rt: HostRuntime) -> anyhow::Result<()> {
    let interfaces = core_interfaces();
    let Ok(table) = InterfaceTable::new(&interfaces) else {
        return Err(anyhow!("the core interfaces are refused"));
    };
    let mut incoming = [Frame::EMPTY; 1];
    let mut outgoing = [Frame::EMPTY; 1];
    let Ok(lower) = BufferedEnd::new(ListEnd::new(&mut incoming, &mut outgoing), 1) else {
        return Err(anyhow!("a buffer of 1 frame is refused"));
    };
    let Ok(mut end) = BufferedEnd::new(lower, 2) else {
        return Err(anyhow!("a buffer of 2 frames is refused"));
    };
    let mut slots = Slots {
        client: [None; 8],
        server: [None; 1],
    };
    let Ok(mut connection) = Connection::new(1, &mut slots.client, &mut slots.server) else {
        return Err(anyhow!("8 slots and 1 are refused"));
    };
    let outcome = fill(&rt, &mut connection, &table, &mut slots, &mut end);
    connection.end();
    outcome?;
    Ok(())
}
