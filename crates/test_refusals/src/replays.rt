//! Replays whose requests for memory are refused.

// A replay of a put, with each allocation refused in turn.
use crate::answers::keeps_file;
use archive_memory::MemoryKeeper;
use archive_world::{
    Datagram, Event, Op, OpKind, Opening, Outcome as Left, SERVER, WorldFault, replay,
};
use refusing::{Complaint, Outcome, Refusing, refuse_each};
use std::alloc::{AllocError, Allocator, Global};
use std::cell::Cell;
use test_samples::{
    ACK_0, ACK_1, ALICE, DATA_HUNDRED, EMPTY_LYNX, EMPTY_MS, HUNDRED, NOT_KEPT, OUT_OF_MEMORY,
    PEER, SECOND_PEER, UNKNOWN_TRANSFER, WRQ,
};
use tftp_packet::Endpoint;
use tws_file::Bytes;

// ---- events

// A put of the file.
fn put<A: Allocator>(alloc: A) -> Result<Op<A>, AllocError> {
    let file = Vec::from_slice(alloc, HUNDRED)?;
    Ok(Op {
        client: ALICE,
        kind: OpKind::Put(Bytes::of(file)),
    })
}

// Whether there is memory for one more event.
fn add<A: Allocator + Copy>(events: &mut Vec<Event<A>, A>, event: Event<A>) -> bool {
    events.push(event).is_ok()
}

// Begins the put.
fn add_put<A: Allocator + Copy>(alloc: A, events: &mut Vec<Event<A>, A>) -> bool {
    match put(alloc) {
        Ok(op) => add(events, Event::Begin(op)),
        Err(_) => false,
    }
}

// Delivers these datagrams, each with its spare port.
fn add_deliveries<A: Allocator + Copy>(
    events: &mut Vec<Event<A>, A>,
    deliveries: &[(usize, u16)],
) -> bool {
    for (index, spare) in deliveries {
        let delivery = Event::Deliver {
            index: *index,
            spare: *spare,
        };
        if !add(events, delivery) {
            return false;
        }
    }
    true
}

// A put begins, and these datagrams are delivered; `None` if there is no memory for that.
fn put_events<A: Allocator + Copy>(
    alloc: A,
    deliveries: &[(usize, u16)],
) -> Option<Vec<Event<A>, A>> {
    let mut events = Vec::new(alloc);
    if add_put(alloc, &mut events) && add_deliveries(&mut events, deliveries) {
        Some(events)
    } else {
        None
    }
}

// ---- what is left

// What was refused in any run, besides the allocations of the replay itself.
#[derive(Drop)]
struct Seen {
    request: Cell<bool>,
    keep: Cell<bool>,
    load: Cell<bool>,
}

// A datagram: where it comes from, where it goes to, and its bytes.
type Sent<'a> = (Endpoint, Endpoint, &'a [u8]);

fn is_datagram<A: Allocator>(one: &Datagram<A>, wanted: Sent<'_>) -> bool {
    let (from, to, bytes) = wanted;
    one.from == from && one.to == to && one.bytes.as_slice() == bytes
}

// Whether exactly these were sent.
fn were_sent<A: Allocator>(datagrams: &[Datagram<A>], wanted: &[Sent<'_>]) -> bool {
    for (one, sent) in datagrams.iter().zip(wanted) {
        if !is_datagram(one, *sent) {
            return false;
        }
    }
    datagrams.len() == wanted.len()
}

fn is_opening(one: &Opening, port: u16) -> bool {
    one.peer == ALICE && one.port == port && one.taken == 0
}

// Whether transfers were opened for the client at exactly these ports.
fn were_opened(opened: &[Opening], ports: &[u16]) -> bool {
    for (one, port) in opened.iter().zip(ports) {
        if !is_opening(one, *port) {
            return false;
        }
    }
    opened.len() == ports.len()
}

// Whether the server has this text for Lynx, and nothing for MS; nothing was fetched.
fn has_texts<A: Allocator>(left: &Left<A>, lynx: &[u8]) -> bool {
    left.got.is_empty() && left.lynx.as_slice() == lynx && left.ms.as_slice() == EMPTY_MS.as_slice()
}

// Whether nothing was taken, sent or fetched, and the server has nothing.
fn has_nothing<A: Allocator>(left: &Left<A>) -> bool {
    let has_texts = has_texts(left, EMPTY_LYNX);
    has_texts && left.taken.is_empty() && left.sent.is_empty()
}

// Whether exactly the file was taken.
fn was_taken<A: Allocator>(left: &Left<A>) -> bool {
    match left.taken.as_slice() {
        [one] => one.file.as_slice() == HUNDRED.as_slice() && one.peer == ALICE,
        _ => false,
    }
}

// Whether the file was taken and counts as sent by these clients, and the server has it and nothing else.
fn has_file<A: Allocator>(left: &Left<A>, sent: &[Endpoint]) -> bool {
    let was_taken = was_taken(left);
    let has_texts = has_texts(left, HUNDRED);
    was_taken && has_texts && left.sent.as_slice() == sent
}

// ---- a request that is answered

const REQUEST: [(usize, u16); 2] = [(0, 4000), (1, 0)];

// What is left if the request is refused.
fn judge_refused<A: Allocator>(left: &Left<A>) -> Outcome {
    let sent: [Sent<'_>; 2] = [(ALICE, SERVER, WRQ), (SERVER, ALICE, OUT_OF_MEMORY)];
    let is_sent = were_sent(left.datagrams.as_slice(), &sent);
    let has_nothing = has_nothing(left);
    Outcome::refused(is_sent && has_nothing)
}

// What is left if it is served.
fn judge_served<A: Allocator>(left: &Left<A>) -> Outcome {
    let sent: [Sent<'_>; 3] = [
        (ALICE, SERVER, WRQ),
        (PEER, ALICE, ACK_0),
        (ALICE, PEER, DATA_HUNDRED),
    ];
    let is_sent = were_sent(left.datagrams.as_slice(), &sent);
    let is_opened = were_opened(left.opened.as_slice(), &[4000]);
    let has_nothing = has_nothing(left);
    Outcome::of(is_sent && is_opened && has_nothing)
}

fn judge_request<A: Allocator>(left: &Left<A>, seen: &Seen) -> Outcome {
    if left.opened.is_empty() {
        seen.request.set(true);
        return judge_refused(left);
    }
    judge_served(left)
}

// ---- a request that arrives twice

const TWICE: [(usize, u16); 7] = [(0, 4000), (0, 4001), (1, 0), (2, 0), (4, 0), (3, 0), (5, 0)];

// Whether these are the datagrams of the run with ample memory; the last one differs if the block is refused.
fn were_sent_twice<A: Allocator>(datagrams: &[Datagram<A>], last: &[u8]) -> bool {
    let sent: [Sent<'_>; 6] = [
        (ALICE, SERVER, WRQ),
        (PEER, ALICE, ACK_0),
        (SECOND_PEER, ALICE, ACK_0),
        (ALICE, PEER, DATA_HUNDRED),
        (ALICE, SECOND_PEER, UNKNOWN_TRANSFER),
        (PEER, ALICE, last),
    ];
    were_sent(datagrams, &sent)
}

// What is left if both requests are served.
fn judge_twice<A: Allocator>(left: &Left<A>) -> Outcome {
    let datagrams = left.datagrams.as_slice();
    if !were_opened(left.opened.as_slice(), &[4000, 4001]) {
        return Outcome::Wrong;
    }
    if left.taken.is_empty() {
        return Outcome::refused(has_nothing(left) && were_sent_twice(datagrams, OUT_OF_MEMORY));
    }
    Outcome::of(has_file(left, &[ALICE]) && were_sent_twice(datagrams, ACK_1))
}

// What such a replay comes to that failed.
fn judge_fault_twice(fault: WorldFault, seen: &Seen) -> Outcome {
    // One of the requests is refused, so there are too few datagrams.
    if fault == WorldFault::BadEvent(5) {
        seen.request.set(true);
        return Outcome::OutOfMemory;
    }
    Outcome::refused(fault == WorldFault::Memory)
}

// ---- a put, and then a restart

const WHOLE: [(usize, u16); 3] = [(0, 4000), (1, 0), (2, 0)];

// Whether these are the datagrams of a put with ample memory; the last one differs if the block is refused.
fn were_sent_once<A: Allocator>(datagrams: &[Datagram<A>], last: &[u8]) -> bool {
    let sent: [Sent<'_>; 4] = [
        (ALICE, SERVER, WRQ),
        (PEER, ALICE, ACK_0),
        (ALICE, PEER, DATA_HUNDRED),
        (PEER, ALICE, last),
    ];
    were_sent(datagrams, &sent)
}

// What a put leaves whose last block was refused, or whose collection was not kept: nothing, also with the keeper.
fn judge_unkept<A: Allocator, B: Allocator + Copy>(
    left: &Left<A>,
    keeper: &MemoryKeeper<B>,
    seen: &Seen,
) -> Outcome {
    let datagrams = left.datagrams.as_slice();
    let is_unkept = were_sent_once(datagrams, NOT_KEPT);
    if is_unkept {
        seen.keep.set(true);
    }
    let is_reported = is_unkept || were_sent_once(datagrams, OUT_OF_MEMORY);
    Outcome::refused(is_reported && has_nothing(left) && keeper.kept().is_empty())
}

// What a put and a restart leave, also with the keeper. The last ACK is never delivered.
fn judge_restarted<A: Allocator, B: Allocator + Copy>(
    left: &Left<A>,
    keeper: &MemoryKeeper<B>,
    seen: &Seen,
) -> Outcome {
    if !were_opened(left.opened.as_slice(), &[4000]) {
        return Outcome::Wrong;
    }
    if left.taken.is_empty() {
        return judge_unkept(left, keeper, seen);
    }
    let is_sent = were_sent_once(left.datagrams.as_slice(), ACK_1);
    Outcome::of(is_sent && has_file(left, &[]) && keeps_file(keeper))
}

// What such a replay comes to that failed.
fn judge_fault_restarted<A: Allocator + Copy>(
    fault: WorldFault,
    keeper: &MemoryKeeper<A>,
    seen: &Seen,
) -> Outcome {
    match fault {
        WorldFault::BadEvent(3) => {
            seen.request.set(true);
            Outcome::refused(keeper.kept().is_empty())
        }
        WorldFault::NotLoaded(4) => {
            seen.load.set(true);
            Outcome::refused(keeps_file(keeper))
        }
        fault => {
            let is_either = keeper.kept().is_empty() || keeps_file(keeper);
            Outcome::refused(fault == WorldFault::Memory && is_either)
        }
    }
}

// ---- the runs

// What is replayed.
#[derive(Clone, Copy)]
enum Run {
    Request,
    Twice,
    Restart,
}

// What a run leaves, also with the keeper.
fn judge_left<A: Allocator, B: Allocator + Copy>(
    run: Run,
    left: &Left<A>,
    keeper: &MemoryKeeper<B>,
    seen: &Seen,
) -> Outcome {
    match run {
        Run::Request => judge_request(left, seen),
        Run::Twice => judge_twice(left),
        Run::Restart => judge_restarted(left, keeper, seen),
    }
}

// What a run comes to that failed.
fn judge_fault<A: Allocator + Copy>(
    run: Run,
    fault: WorldFault,
    keeper: &MemoryKeeper<A>,
    seen: &Seen,
) -> Outcome {
    match run {
        Run::Request => Outcome::refused(fault == WorldFault::Memory),
        Run::Twice => judge_fault_twice(fault, seen),
        Run::Restart => judge_fault_restarted(fault, keeper, seen),
    }
}

fn replay_with<A: Allocator + Copy, B: Allocator + Copy>(
    alloc: A,
    keeper: &mut MemoryKeeper<B>,
    events: &[Event<A>],
    run: Run,
    seen: &Seen,
) -> Outcome {
    match replay(alloc, keeper, events) {
        Ok(left) => judge_left(run, &left, keeper, seen),
        Err(fault) => judge_fault(run, fault, keeper, seen),
    }
}

// The keeper's allocations are refused too.
fn restart<A: Allocator + Copy>(alloc: A, events: &mut Vec<Event<A>, A>, seen: &Seen) -> Outcome {
    if !add(events, Event::Restart) {
        return Outcome::OutOfMemory;
    }
    replay_with(
        alloc,
        &mut MemoryKeeper::new(alloc),
        events,
        Run::Restart,
        seen,
    )
}

// Replays these events, to which a run with a restart adds that.
fn replay_run<A: Allocator + Copy>(
    global: Global,
    alloc: A,
    events: &mut Vec<Event<A>, A>,
    run: Run,
    seen: &Seen,
) -> Outcome {
    match run {
        Run::Restart => restart(alloc, events, seen),
        run => replay_with(alloc, &mut MemoryKeeper::new(global), events, run, seen),
    }
}

fn put_and_replay(refusing: &Refusing<Global>, run: Run, seen: &Seen) -> Outcome {
    let deliveries = match run {
        Run::Request => REQUEST.as_slice(),
        Run::Twice => TWICE.as_slice(),
        Run::Restart => WHOLE.as_slice(),
    };
    match put_events(refusing, deliveries) {
        Some(mut events) => replay_run(refusing.inner, refusing, &mut events, run, seen),
        None => Outcome::OutOfMemory,
    }
}

// Makes a run with each request for memory refused in turn. Returns also whether a request, a keep and a load were
// refused in any of them.
fn refuse_each_of(global: Global, least: u64, run: Run) -> (Result<(), Complaint>, [bool; 3]) {
    let seen = Seen {
        request: Cell::new(false),
        keep: Cell::new(false),
        load: Cell::new(false),
    };
    let done = refuse_each(
        global,
        least,
        &|refusing: &Refusing<Global>| put_and_replay(refusing, run, &seen),
    );
    (done, [seen.request.get(), seen.keep.get(), seen.load.get()])
}

// A request and its answer: the replay is out of memory, or the request is refused, or everything is as it is with
// ample memory.
#[test]
fn a_request_in_a_replay(rt: HostRuntime) {
    let (done, [request, _, _]) = refuse_each_of(rt.alloc(), 4, Run::Request);
    assert_eq!(rt; (done, request), (Ok(()), true));
}

// A request that is refused is answered, and no block is sent to a second transfer: a later event is then about a
// datagram that was not sent.
#[test]
fn a_request_that_comes_twice_in_a_replay(rt: HostRuntime) {
    let (done, [request, _, _]) = refuse_each_of(rt.alloc(), 8, Run::Twice);
    assert_eq!(rt; (done, request), (Ok(()), true));
}

// After the restart the server has the file if it was taken, and nothing if it was not.
#[test]
fn a_put_and_a_restart_in_a_replay(rt: HostRuntime) {
    let (done, refused) = refuse_each_of(rt.alloc(), 8, Run::Restart);
    assert_eq!(rt; (done, refused), (Ok(()), [true; 3]));
}
