//! Worked cases, through the calls themselves.

use crate::{Frames, Lent, Turn, ask, change_mind, send_sync, take_turn};
use client::connection::{Connection, HandedEvent, ReadIntent, Round};
use client::error::CallError;
use client::next::NextAnswer;
use client::object::Object;
use client::reads::{ReadAnswer, ResumeAnswer};
use client::settling::Settled;
use protocol::argument::Argument;
use protocol::core_interfaces::core_interfaces;
use protocol::error::{ProtocolReason, WaylandError};
use protocol::id::ObjectId;
use protocol::refusal::Refusal;
use protocol::table::InterfaceTable;
use std::process::Abort;
use transport::list_end::ListEnd;
use transport::outgoing::Outgoing;
use transport::world::World;

/// Connection 9 over fresh rooms.
fn connect(rt: &impl Abort, lent: &mut Lent) -> Connection {
    match Connection::new(9, &mut lent.client, &mut lent.server) {
        Ok(connection) => connection,
        Err(refusal) => panic!(rt; "no connection: {refusal}"),
    }
}

fn prepared(rt: &impl Abort, connection: &mut Connection, lent: &Lent) -> ReadIntent {
    match connection.prepare(&lent.client, &lent.server) {
        Ok(intent) => intent,
        Err(refusal) => panic!(rt; "no read: {refusal}"),
    }
}

fn opened(rt: &impl Abort, connection: &mut Connection, lent: &Lent) -> Round {
    let intent = prepared(rt, connection, lent);
    match connection.read(&lent.client, &lent.server, intent) {
        Ok(ReadAnswer::Round(round)) => round,
        _ => panic!(rt; "no round"),
    }
}

fn handed(
    rt: &impl Abort,
    connection: &mut Connection,
    table: &InterfaceTable<'_>,
    lent: &mut Lent,
    end: &mut ListEnd<'_>,
    round: Round,
) -> (HandedEvent, ObjectId, u16) {
    match ask(connection, table, lent, end, round) {
        Ok(
            NextAnswer::Handed {
                event,
                receiver,
                opcode,
            },
        ) => (event, receiver, opcode),
        _ => panic!(rt; "no event"),
    }
}

fn quiet(
    rt: &impl Abort,
    connection: &mut Connection,
    table: &InterfaceTable<'_>,
    lent: &mut Lent,
    end: &mut ListEnd<'_>,
    round: Round,
) -> Round {
    match ask(connection, table, lent, end, round) {
        Ok(NextAnswer::Quiet(round)) => round,
        _ => panic!(rt; "not quiet"),
    }
}

fn over(
    rt: &impl Abort,
    connection: &mut Connection,
    table: &InterfaceTable<'_>,
    lent: &mut Lent,
    end: &mut ListEnd<'_>,
    round: Round,
) -> Result<u64, WaylandError> {
    match ask(connection, table, lent, end, round) {
        Ok(NextAnswer::Over(answer)) => answer,
        _ => panic!(rt; "not over"),
    }
}

fn settled(
    rt: &impl Abort,
    connection: &mut Connection,
    lent: &mut Lent,
    event: HandedEvent,
) -> Settled {
    match connection.settle(&mut lent.client, &mut lent.server, event, 0) {
        Ok(settled) => settled,
        Err(_) => panic!(rt; "not settled"),
    }
}

/// The handle of the callback of a `sync`.
fn synced(
    rt: &impl Abort,
    connection: &mut Connection,
    table: &InterfaceTable<'_>,
    lent: &mut Lent,
    end: &mut ListEnd<'_>,
    data: u64,
) -> ObjectId {
    match send_sync(connection, table, lent, end, data) {
        Ok(sent) => sent.child,
        Err(refusal) => panic!(rt; "no sync: {refusal}"),
    }
}

/// An event with one number arrives.
fn bring(rt: &impl Abort, end: &mut ListEnd<'_>, sender: u32, opcode: u16, number: u32) {
    let args = [Argument::Uint(number)];
    match Outgoing::new(sender, opcode, &args, &[]) {
        Ok(message) => assert!(rt; end.deliver(&message), "there is a place"),
        Err(refusal) => panic!(rt; "no message: {refusal}"),
    }
}

fn is(handle: ObjectId, number: u32, serial: u32) -> bool {
    handle.number == number && handle.serial == serial && handle.interface == 2
}

const CALLBACK_DONE: u16 = 0;

const DELETE_ID: u16 = 1;

/// What arrived for connection 9 up to where a callback of number 2 is gone, and its handle; the round goes on.
fn first_life(
    rt: &impl Abort,
    connection: &mut Connection,
    table: &InterfaceTable<'_>,
    lent: &mut Lent,
    end: &mut ListEnd<'_>,
) -> ObjectId {
    let first = synced(rt, connection, table, lent, end, 5);
    assert!(rt; is(first, 2, 1), "the first sync has number 2 and serial 1");
    bring(rt, end, 2, CALLBACK_DONE, 77);
    let round = opened(rt, connection, lent);
    let (event, receiver, opcode) = handed(rt, connection, table, lent, end, round);
    assert!(rt; is(receiver, 2, 1) && opcode == 0);
    assert!(rt; matches!(lent.args[0], Argument::Uint(77)));
    let Settled { round, notice } = settled(rt, connection, lent, event);
    assert!(rt;
        matches!(notice, Some(notice) if is(notice.id, 2, 1) && notice.data == 5),
        "a notice tells of the callback"
    );
    assert!(rt; over(rt, connection, table, lent, end, round) == Ok(1));
    first
}

#[test]
fn a_number_comes_back(rt: HostRuntime) {
    let interfaces = core_interfaces();
    let Ok(table) = InterfaceTable::new(&interfaces) else {
        panic!(rt; "no table")
    };
    let mut lent = Lent::new();
    let mut frames = Frames::new();
    let mut end = ListEnd::new(&mut frames.incoming, &mut frames.outgoing);
    let mut connection = connect(&rt, &mut lent);
    let old = first_life(&rt, &mut connection, &table, &mut lent, &mut end);
    assert!(rt; connection.info(&lent.client, &lent.server, old).is_err());
    assert!(rt; connection.get_data(&lent.client, &lent.server, old) == Ok(5));
    bring(&rt, &mut end, 1, DELETE_ID, 2);
    let round = opened(&rt, &mut connection, &lent);
    let round = quiet(&rt, &mut connection, &table, &mut lent, &mut end, round);
    let new = synced(&rt, &mut connection, &table, &mut lent, &mut end, 6);
    assert!(rt; is(new, 2, 2), "the number is free, the serial is another");
    assert!(rt;
        connection.get_data(&lent.client, &lent.server, old) == Err(Refusal::InvalidId),
        "the old handle is refused"
    );
    assert!(rt; connection.get_data(&lent.client, &lent.server, new) == Ok(6));
    assert!(rt;
        connection.set_data(&mut lent.client, &mut lent.server, old, 8) == Err(Refusal::InvalidId)
    );
    assert!(rt;
        connection
            .set_data(&mut lent.client, &mut lent.server, new, 8)
            .is_ok()
    );
    match connection.info(&lent.client, &lent.server, new) {
        Ok(info) => assert!(rt; info.id == 2 && info.interface == 2 && info.version == 1),
        Err(refusal) => panic!(rt; "no info: {refusal}"),
    }
    match connection.destroy_object(&mut lent.client, &mut lent.server, new) {
        Ok(notice) => assert!(rt; is(notice.id, 2, 2) && notice.data == 8),
        Err(refusal) => panic!(rt; "not destroyed: {refusal}"),
    }
    let answer = over(&rt, &mut connection, &table, &mut lent, &mut end, round);
    assert!(rt; matches!(answer, Err(WaylandError::Io(fault)) if fault.code == 11));
    assert!(rt;
        connection
            .flush(&lent.client, &lent.server, &mut end)
            .is_ok()
    );
    connection.end();
}

#[test]
fn a_read_waits_for_another(rt: HostRuntime) {
    let mut lent = Lent::new();
    let mut connection = connect(&rt, &mut lent);
    let first = prepared(&rt, &mut connection, &lent);
    let second = prepared(&rt, &mut connection, &lent);
    let waiting = match connection.read(&lent.client, &lent.server, first) {
        Ok(ReadAnswer::Waits(waiting)) => waiting,
        _ => panic!(rt; "it has to wait"),
    };
    assert!(rt;
        matches!(
            connection.resume(&lent.client, &lent.server, waiting),
            Ok(ResumeAnswer::Waits(_))
        )
    );
    match connection.cancel(&lent.client, &lent.server, second) {
        Ok(()) => {}
        Err(_) => panic!(rt; "not cancelled"),
    }
    assert!(rt;
        matches!(
            connection.resume(&lent.client, &lent.server, waiting),
            Ok(ResumeAnswer::Over)
        )
    );
    match change_mind(&mut connection, &lent) {
        Ok(()) => {}
        Err(_) => panic!(rt; "another read can be prepared and cancelled"),
    }
    connection.end();
}

#[test]
fn an_unknown_sender_ends_the_round(rt: HostRuntime) {
    let interfaces = core_interfaces();
    let Ok(table) = InterfaceTable::new(&interfaces) else {
        panic!(rt; "no table")
    };
    let mut lent = Lent::new();
    let mut frames = Frames::new();
    let mut end = ListEnd::new(&mut frames.incoming, &mut frames.outgoing);
    let mut connection = connect(&rt, &mut lent);
    bring(&rt, &mut end, 7, CALLBACK_DONE, 77);
    let round = opened(&rt, &mut connection, &lent);
    let answer = over(&rt, &mut connection, &table, &mut lent, &mut end, round);
    assert!(rt; is_malformed(answer));
    let flushed = connection.flush(&lent.client, &lent.server, &mut end);
    assert!(rt; matches!(flushed, Err(CallError::Fault(fault)) if is_malformed(Err(fault))));
    let next_read = take_turn(&mut connection, &table, &mut lent, &mut end, 6);
    match next_read {
        Ok(Turn::Fault(fault)) => assert!(rt; is_malformed(Err(fault))),
        _ => panic!(rt; "the fault is stored"),
    }
    connection.end();
}

fn is_malformed(answer: Result<u64, WaylandError>) -> bool {
    matches!(
        answer,
        Err(WaylandError::Protocol(error))
            if error.reason == ProtocolReason::Malformed && error.code == 0 && error.object_id == 0
    )
}

#[test]
fn a_turn_answers_an_event(rt: HostRuntime) {
    let interfaces = core_interfaces();
    let Ok(table) = InterfaceTable::new(&interfaces) else {
        panic!(rt; "no table")
    };
    let mut lent = Lent::new();
    let mut frames = Frames::new();
    let mut end = ListEnd::new(&mut frames.incoming, &mut frames.outgoing);
    let mut connection = connect(&rt, &mut lent);
    let first = synced(&rt, &mut connection, &table, &mut lent, &mut end, 5);
    bring(&rt, &mut end, 2, CALLBACK_DONE, 77);
    match take_turn(&mut connection, &table, &mut lent, &mut end, 6) {
        Ok(Turn::Answered(Settled { round, notice }, Ok(sent))) => {
            assert!(rt; is(sent.child, 3, 2), "number 2 is not given back yet");
            assert!(rt; matches!(notice, Some(notice) if notice.data == 5));
            let answer = over(&rt, &mut connection, &table, &mut lent, &mut end, round);
            assert!(rt; answer == Ok(1));
        }
        _ => panic!(rt; "no event was settled"),
    }
    assert!(rt; end.sent_len() == 2, "both syncs were sent");
    assert!(rt; connection.info(&lent.client, &lent.server, first).is_err());
    connection.end();
}

#[test]
fn rooms_of_another_length_are_refused(rt: HostRuntime) {
    let interfaces = core_interfaces();
    let Ok(table) = InterfaceTable::new(&interfaces) else {
        panic!(rt; "no table")
    };
    let mut lent = Lent::new();
    let mut frames = Frames::new();
    let mut end = ListEnd::new(&mut frames.incoming, &mut frames.outgoing);
    let mut few: [Option<Object>; 7] = [None; 7];
    let mut connection = connect(&rt, &mut lent);
    let handle = synced(&rt, &mut connection, &table, &mut lent, &mut end, 5);
    bring(&rt, &mut end, 2, CALLBACK_DONE, 77);
    assert!(rt; connection.get_data(&few, &lent.server, handle) == Err(Refusal::BadRoom));
    assert!(rt;
        connection.set_data(&mut few, &mut lent.server, handle, 8) == Err(Refusal::BadRoom)
    );
    match connection.prepare(&few, &lent.server) {
        Err(refusal) => assert!(rt; refusal.number() == 12),
        Ok(_) => panic!(rt; "prepared over other rooms"),
    }
    let intent = prepared(&rt, &mut connection, &lent);
    let (refusal, intent) = match connection.read(&few, &lent.server, intent) {
        Err(back) => back,
        _ => panic!(rt; "read over other rooms"),
    };
    assert!(rt; refusal.number() == 12);
    let (refusal, intent) = match connection.cancel(&few, &lent.server, intent) {
        Err(back) => back,
        _ => panic!(rt; "cancelled over other rooms"),
    };
    assert!(rt; refusal.number() == 12);
    let round = match connection.read(&lent.client, &lent.server, intent) {
        Ok(ReadAnswer::Round(round)) => round,
        _ => panic!(rt; "the intent was given back"),
    };
    let short = connection.next(
        &table,
        &mut lent.client,
        &mut lent.server,
        &mut end,
        round,
        &mut lent.args[..19],
        &mut lent.text,
        &mut lent.fault_text,
    );
    let (refusal, round) = match short {
        Err(back) => back,
        _ => panic!(rt; "nineteen places are too few"),
    };
    assert!(rt; refusal.number() == 12);
    let (event, receiver, _) = handed(&rt, &mut connection, &table, &mut lent, &mut end, round);
    assert!(rt; is(receiver, 2, 1));
    let (refusal, event) = match connection.settle(&mut few, &mut lent.server, event, 0) {
        Err(back) => back,
        _ => panic!(rt; "settled over other rooms"),
    };
    assert!(rt; refusal.number() == 12);
    let (refusal, event) = match connection.settle(&mut lent.client, &mut lent.server, event, 4) {
        Err(back) => back,
        _ => panic!(rt; "nothing was created"),
    };
    assert!(rt; refusal == Refusal::BadData);
    let Settled { round, notice } = settled(&rt, &mut connection, &mut lent, event);
    assert!(rt; matches!(notice, Some(notice) if notice.data == 5));
    round.end(connection.end());
}
