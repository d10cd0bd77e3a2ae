//! A session beside workers, from its source to its last reply.
ghost use Rattle.std.specs.Prelude.{◌≡◌, ◌+◌, ◌≤◌, [], ◌∷◌, ◌++◌, length, vec_len, vec_capacity};
ghost use Rattle.std.specs.Prelude.{OnOk, IfOk, IfErr, IfSome, IfNone};
ghost use Rattle.gr_program.specs.Views.{program_of};
ghost use Rattle.gr_lines.specs.Devices.{change};
ghost use Rattle.gr_serve.specs.Debug.{BlamesDevice};
ghost use Rattle.gr_share.specs.Seats.{AreAll};
ghost use Rattle.rewind.specs.Beside.{AreFrom, numbers_of, Settled, Streamed, EndedWith, BesideEnds, DebuggedBeside, BesideLeft, IsStill};

use crate::desk::serve_desk;
use crate::threads::{Task, beside};
use gr_base::NoMemory;
use gr_lines::counted::Counted;
use gr_serve::debug::{DebugFault, open_source};
use gr_serve::stream::ServeFault;
use gr_share::{Desk, Opened, Room, Shared, Worker, finish};
use std::alloc::Global;
use std::io::{BufRead, Read, Write};
use std::marker::Brand;
use std::mem;
use std::sync::Wait;
use std::thread::Threads;

const MEMORY: DebugFault = DebugFault::Serve(ServeFault::Memory);

// A desk, with the devices of its stream.
#[derive(Drop)]
struct Stream<'a, 'r, 'w, B: Room, T, R, W> {
    rt: &'a T,
    alloc: Global,
    shared: &'a Shared<B>,
    desk: Desk<B>,
    reader: &'r mut Counted<R>,
    writer: &'w mut Counted<W>,
}

impl<'a, 'r, 'w, B: Room, T: Wait, R: BufRead, W: Write> Task for Stream<'a, 'r, 'w, B, T, R, W> {
    ghost use Rattle.std.specs.Prelude.{◌≡◌};
    ghost use Rattle.gr_lines.specs.Devices.{change};
    ghost use Rattle.rewind.specs.Beside.{Streamed};

    type Output = (
        Desk<B>,
        &'r mut Counted<R>,
        &'w mut Counted<W>,
        Result<(), ServeFault>,
    );

    ghost gives = { λ s r. (r.1.ghost_name ≡ s.reader.ghost_name) × (r.2.ghost_name ≡ s.writer.ghost_name)
        × (r.0.number ≡ s.desk.number)
        × Streamed s.desk r.0 r.3 (change R.remaining s.reader.now r.1.now) (change W.contents s.writer.now r.2.now) };

    fn run(
        self,
    ) -> (
        Desk<B>,
        &'r mut Counted<R>,
        &'w mut Counted<W>,
        Result<(), ServeFault>,
    ) {
        let Stream {
            rt,
            alloc,
            shared,
            mut desk,
            reader,
            writer,
        } = self;
        let served = serve(rt, alloc, shared, &mut desk, reader, writer);
        (desk, reader, writer, served)
    }

    type Left = (&'r mut Counted<R>, &'w mut Counted<W>);

    ghost leaves = { λ s r. (r.0.ghost_name ≡ s.reader.ghost_name) × (r.1.ghost_name ≡ s.writer.ghost_name)
        × (r.0.now ≡ s.reader.now) × (r.1.now ≡ s.writer.now) };

    fn leave(self) -> (&'r mut Counted<R>, &'w mut Counted<W>) {
        let Stream {
            rt: _,
            alloc: _,
            shared: _,
            desk: _,
            reader,
            writer,
        } = self;
        (reader, writer)
    }
}

/// Serves a desk, in one clause.
fn serve<B: Room, T: Wait, R: BufRead, W: Write>(
    rt: &T,
    alloc: Global,
    shared: &Shared<B>,
    desk: &mut Desk<B>,
    reader: &mut Counted<R>,
    writer: &mut Counted<W>,
) -> Result<(), ServeFault>
    ensures stream { Streamed desk.old desk.new result
        (change R.remaining reader.old reader.new) (change W.contents writer.old writer.new) }
    ensures number { desk.new.number ≡ desk.old.number }
{
    match serve_desk(rt, alloc, shared, desk, reader, writer) {
        Ok(()) => Ok(()),
        Err(fault) => Err(fault),
    }
}

/// Ties a reference that came back, for the borrow checker, to the one that was lent.
fn reclaim<T>(lent: &mut T)
    ensures { lent.new ≡ lent.old }
{}

/// The first seat, for a desk.
fn desk_seat<B: Room, T: Wait>(
    rt: &T,
    alloc: Global,
    shared: &Shared<B>,
) -> Result<Desk<B>, NoMemory>
    ensures { IfOk result (λ desk. (desk.calls ≡ []) × (desk.number ≡ 1)) }
{
    match shared.desk(rt, alloc) {
        Ok(desk) if desk.number() == 1 => Ok(desk),
        _ => Err(NoMemory),
    }
}

/// The further seats, for workers. Nobody else has been given one, so the numbers follow each other.
fn worker_seats<B: Room, T: Wait>(
    rt: &T,
    alloc: Global,
    shared: &Shared<B>,
    seats: u32,
) -> Result<Vec<Worker<B>>, NoMemory>
    ensures { IfOk result (λ workers. AreFrom 2 workers.items × (seats ≤ 1 + length workers.items)) }
{
    let mut workers = Vec::new(alloc);
    for number in 1..seats {
        match shared.worker_seat(rt, alloc) {
            Ok(seat) if seat.number() == number + 1 => workers.push(seat)?,
            _ => return Err(NoMemory),
        }
    }
    Ok(workers)
}

/// Serves a desk beside the workers. Where a thread could not be started, nothing was read or written.
fn serve_among<B: Room + Send + Sync, T: Threads + Wait + Sync, R: BufRead, W: Write>(
    rt: &T,
    alloc: Global,
    shared: &Shared<B>,
    workers: Vec<Worker<B>>,
    desk: Desk<B>,
    reader: &mut Counted<R>,
    writer: &mut Counted<W>,
) -> Option<(Desk<B>, Vec<Worker<B>>, Result<(), ServeFault>)>
    ensures served { IfSome result (λ r. Streamed desk r.0 r.2
        (change R.remaining reader.old reader.new) (change W.contents writer.old writer.new)) }
    ensures seats { IfSome result (λ r. (r.0.number ≡ desk.number) × (numbers_of r.1.items ≡ numbers_of workers.items)) }
    ensures none { IfNone result (IsStill (change R.remaining reader.old reader.new)
        × IsStill (change W.contents writer.old writer.new)) }
{
    let stream = Stream {
        rt,
        alloc,
        shared,
        desk,
        reader,
        writer,
    };
    match beside(rt, alloc, shared, workers, stream) {
        Ok((streamed, workers)) => {
            let (desk, reader, writer, served) = streamed;
            reclaim(reader);
            reclaim(writer);
            Some((desk, workers, served))
        }
        Err((reader, writer)) => {
            reclaim(reader);
            reclaim(writer);
            None
        }
    }
}

/// A list with room for one desk.
fn room_for_desk<B: Room>(alloc: Global) -> Result<Vec<Desk<B>>, NoMemory>
    ensures empty { IfOk result (λ desks. (desks.items ≡ []) × (vec_len desks ≡ 0)) }
    ensures room { IfOk result (λ desks. 1 ≤ vec_capacity desks) }
{
    let mut desks = Vec::new(alloc);
    match desks.reserve(1) {
        Ok(()) => Ok(desks),
        Err(_) => Err(NoMemory),
    }
}

/// Ends the sharing, where no seat is missing: then each desk's entries are its calls. The session's memory is not given back: this
/// is the last thing that a program does.
fn settle<B: Room>(shared: Shared<B>, desks: Vec<Desk<B>>, workers: Vec<Worker<B>>)
    requires first { shared.first ≡ 0 }
    requires all { AreAll 0 B.last desks.items workers.items }
    ensures { Settled B.program desks.items }
{
    match finish(shared, desks, workers) {
        Ok(finished) => {
            let _ = finished.session.journal();
            mem::forget(finished);
        }
        Err(_) => unreachable!(),
    }
}

/// Ends the sharing once a stream was served, and tells the stream's fault.
fn ended<B: Room>(
    shared: Shared<B>,
    desks: Vec<Desk<B>>,
    workers: Vec<Worker<B>>,
    served: Result<(), ServeFault>,
) -> Result<(), DebugFault>
    requires first { shared.first ≡ 0 }
    requires all { AreAll 0 B.last desks.items workers.items }
    ensures { EndedWith served (Settled B.program desks.items) result }
{
    settle(shared, desks, workers);
    match served {
        Ok(()) => Ok(()),
        Err(fault) => Err(DebugFault::Serve(fault)),
    }
}

/// Serves one desk of the session, beside workers that take the other seats. In the end the workers are told to end and waited for,
/// and the session is shared no more.
fn serve_beside<B: Room + Send + Sync, T: Threads + Wait + Sync, R: BufRead, W: Write>(
    rt: &T,
    alloc: Global,
    opened: Opened,
    seats: u32,
    reader: &mut Counted<R>,
    writer: &mut Counted<W>,
) -> Result<(), DebugFault>
    requires table { opened.table ≡ B.table }
    requires session { (program_of opened.session.program ≡ B.program) × (opened.session.askers ≡ B.first) }
    requires before { opened.session.journal ≡ B.before }
    requires seats { B.last ≡ B.first + seats }
    requires fresh { opened.session.askers ≡ 0 }
    ensures { BesideEnds B.program result
        (change R.remaining reader.old reader.new) (change W.contents writer.old writer.new) }
{
    let shared = Shared::<B>::new(opened, seats);
    let Ok(desk) = desk_seat(rt, alloc, &shared) else {
        return Err(MEMORY);
    };
    let Ok(mut desks) = room_for_desk(alloc) else {
        return Err(MEMORY);
    };
    let Ok(workers) = worker_seats(rt, alloc, &shared, seats) else {
        return Err(MEMORY);
    };
    match serve_among(rt, alloc, &shared, workers, desk, reader, writer) {
        Some((desk, workers, served)) => {
            desks.push_reserved(desk);
            ended(shared, desks, workers, served)
        }
        None => Err(DebugFault::Threads),
    }
}

/// Reads the source, opens a session of its program, and serves one desk of it as `debug` serves a session. Beside it this many
/// workers, each on a thread of its own, take the steps that `free` grants. In the end it tells the workers to end, waits for
/// them, and shares the session no more.
///
/// The answers are those of a legal journal of the source's program, in which the desk's entries are its commands, in their
/// order. All other entries are turns and batches of the workers. That holds after `Read`, `Write` and `Memory`, too, for the
/// commands that were answered.
///
/// `Threads` means that a thread could not be started, and no command was read. The other faults mean what they mean in `debug`.
pub fn debug_beside<S: Read, R: BufRead, W: Write, T: Threads + Wait + Sync>(
    rt: &T,
    alloc: Global,
    workers: u32,
    source: &mut Counted<S>,
    reader: &mut Counted<R>,
    writer: &mut Counted<W>,
) -> Result<(), DebugFault>
    ensures ok { OnOk result (DebuggedBeside (change S.remaining source.old source.new)
        (change R.remaining reader.old reader.new) (change W.contents writer.old writer.new)) }
    ensures err { IfErr result (λ fault. BesideLeft fault (change S.remaining source.old source.new)
        (change R.remaining reader.old reader.new) (change W.contents writer.old writer.new)) }
    ensures blames { IfErr result (λ fault. BlamesDevice fault (change S.remaining source.old source.new)
        (change R.remaining reader.old reader.new) (change W.contents writer.old writer.new)) }
{
    let session = match open_source(alloc, source) {
        Ok(session) => session,
        Err(fault) => return Err(fault),
    };
    let Ok(opened) = Opened::new(alloc, session) else {
        return Err(MEMORY);
    };
    let seats = workers.saturating_add(1);
    serve_beside::<Brand, T, R, W>(rt, alloc, opened, seats, reader, writer)
}
