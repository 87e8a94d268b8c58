//! The clients of a server.

use crate::tests::requests::{
    CUT, DELETE, HUGE, NOT_ALLOWED, NOWHERE, TRUNCATED, UNSUPPORTED, UNTYPED, joined,
};
use crate::tests::server::{ask, close_and_read, reads};
use std::alloc::Global;
use std::io;
use std::io::{Read, Write};
use std::mem::drop;
use std::net::{Net, SocketAddr, TcpListener, TcpStream};
use std::thread::{Threads, join, map_indices};
use trace_samples::exchanges::{
    ACCEPTED, BATCH, CONFLICT, JOURNAL_FULL, NO_SERVICES, NO_SUCH_PATH, NUMBERED, ONE_SERVICE,
    ONE_SPAN, POST, POST_NUMBERED, RENUMBERED, SERVICES, TOO_LARGE, TRACE,
};

/// Which clients come.
#[derive(Clone, Copy)]
pub enum Clients {
    /// One client submits a batch and finds it.
    One,
    /// One client submits a batch, and after it has disconnected another one does.
    TwoSessions,
    /// One client submits two batches, and there is room for one.
    OneTooMany,
    /// One client submits the same numbered batch twice.
    Repeats,
    /// Two clients submit the same numbered batch at the same time.
    RepeatAtOnce,
    /// One client submits a numbered batch, another batch with its number, and the first one again.
    Conflicts,
    /// One client sends requests that are refused; the last one closes the connection.
    Refused,
    /// A connection that found nothing before finds what another one submits.
    TwoConnections,
    /// Two clients connect, and the server is to accept one.
    OneMoreThanSessions,
    /// Two clients query at the same time.
    TwoAtOnce,
    /// Eight clients submit batches and query, all at the same time.
    Eight,
    /// One client stalls inside a head and another one disconnects inside a body, beside one that is served.
    BadNeighbours,
    /// Two hundred connections stay open, and each queries in turn.
    TwoHundred,
    /// One client keeps sending after a response that closes the connection, and reads that response, complete and
    /// alone.
    SendsOn,
}

/// A head, the body after it, and the expected response.
type Exchange = (&'static [u8], &'static [u8], &'static [u8]);

/// No body follows.
const NOTHING: &[u8] = b"";

/// A batch is submitted.
const SUBMITS: [Exchange; 1] = [(POST, BATCH, ACCEPTED)];

/// A second batch has no room.
const ONE_TOO_MANY: [Exchange; 2] = [(POST, BATCH, ACCEPTED), (POST, BATCH, JOURNAL_FULL)];

/// A batch with a `seqNo`, twice.
const REPEATS: [Exchange; 3] = [
    (POST_NUMBERED, NUMBERED, ACCEPTED),
    (POST_NUMBERED, NUMBERED, ACCEPTED),
    (TRACE, NOTHING, ONE_SPAN),
];

/// A numbered batch, which is found.
const NUMBERED_IS_FOUND: [Exchange; 2] = [
    (POST_NUMBERED, NUMBERED, ACCEPTED),
    (TRACE, NOTHING, ONE_SPAN),
];

/// A numbered batch, another one with its number, and the first again.
const CONFLICTS: [Exchange; 5] = [
    (POST_NUMBERED, NUMBERED, ACCEPTED),
    (POST_NUMBERED, RENUMBERED, CONFLICT),
    (TRACE, NOTHING, ONE_SPAN),
    (POST_NUMBERED, NUMBERED, ACCEPTED),
    (TRACE, NOTHING, ONE_SPAN),
];

/// Three requests that are refused, after which the store is empty, and one that closes the connection.
const REFUSED: [Exchange; 5] = [
    (UNTYPED, BATCH, UNSUPPORTED),
    (NOWHERE, NOTHING, NO_SUCH_PATH),
    (CUT, NOTHING, TRUNCATED),
    (SERVICES, NOTHING, NO_SERVICES),
    (DELETE, NOTHING, NOT_ALLOWED),
];

/// The store is empty.
const QUERIES_NOTHING: [Exchange; 1] = [(SERVICES, NOTHING, NO_SERVICES)];

/// A batch is submitted, and its service is listed.
const SUBMITS_AND_QUERIES: [Exchange; 2] = [
    (POST, BATCH, ACCEPTED),
    (SERVICES, NOTHING, ONE_SERVICE),
];

impl Clients {
    /// Returns whether every response was as expected.
    pub fn run<R: Threads + Net<Stream = TcpStream, Listener = TcpListener> + Sync>(
        self,
        rt: &R,
        alloc: Global,
        address: SocketAddr,
    ) -> io::Result<bool> {
        match self {
            Clients::One => one(rt, alloc, address),
            Clients::TwoSessions => Ok(
                asks(rt, alloc, address, &SUBMITS)? && asks(rt, alloc, address, &SUBMITS)?,
            ),
            Clients::OneTooMany => asks(rt, alloc, address, &ONE_TOO_MANY),
            Clients::Repeats => asks(rt, alloc, address, &REPEATS),
            Clients::RepeatAtOnce => two_at_once(rt, alloc, address, &NUMBERED_IS_FOUND),
            Clients::Conflicts => asks(rt, alloc, address, &CONFLICTS),
            Clients::Refused => is_refused(rt, alloc, address),
            Clients::TwoConnections => two_connections(rt, alloc, address),
            Clients::OneMoreThanSessions => one_more_than_sessions(rt, alloc, address),
            Clients::TwoAtOnce => two_at_once(rt, alloc, address, &QUERIES_NOTHING),
            Clients::Eight => eight(rt, alloc, address),
            Clients::BadNeighbours => bad_neighbours(rt, alloc, address),
            Clients::TwoHundred => two_hundred(rt, alloc, address),
            Clients::SendsOn => sends_on(rt, alloc, address),
        }
    }
}

/// Sends each of these over a stream. Returns whether every response was as expected.
fn ask_all<S: Read + Write>(
    alloc: Global,
    stream: &mut S,
    exchanges: &[Exchange],
) -> io::Result<bool> {
    for (head, body, wanted) in exchanges {
        let sent = joined(alloc, &[*head, *body])?;
        if !ask(alloc, stream, sent.as_slice(), wanted)? {
            return Ok(false);
        }
    }
    Ok(true)
}

/// Like `ask_all`, over a connection of its own.
fn asks<R: Net<Stream = TcpStream, Listener = TcpListener>>(
    rt: &R,
    alloc: Global,
    address: SocketAddr,
    exchanges: &[Exchange],
) -> io::Result<bool> {
    let mut stream = TcpStream::connect(rt, address)?;
    ask_all(alloc, &mut stream, exchanges)
}

fn one<R: Net<Stream = TcpStream, Listener = TcpListener>>(
    rt: &R,
    alloc: Global,
    address: SocketAddr,
) -> io::Result<bool> {
    let mut stream = TcpStream::connect(rt, address)?;
    Ok(
        ask_all(alloc, &mut stream, &SUBMITS_AND_QUERIES)?
            && close_and_read(alloc, &mut stream, b"")?,
    )
}

/// Returns whether the server closes the connection without sending more.
fn ends<S: Read>(alloc: Global, stream: &mut S) -> io::Result<bool> {
    let mut rest = Vec::new(alloc);
    stream.read_to_end(&mut rest)?;
    Ok(rest.is_empty())
}

fn is_refused<R: Net<Stream = TcpStream, Listener = TcpListener>>(
    rt: &R,
    alloc: Global,
    address: SocketAddr,
) -> io::Result<bool> {
    let mut stream = TcpStream::connect(rt, address)?;
    Ok(ask_all(alloc, &mut stream, &REFUSED)? && ends(alloc, &mut stream)?)
}

/// Two clients send each of these at the same time, each over a connection of its own.
fn two_at_once<R: Threads + Net<Stream = TcpStream, Listener = TcpListener> + Sync>(
    rt: &R,
    alloc: Global,
    address: SocketAddr,
    exchanges: &[Exchange],
) -> io::Result<bool> {
    let (one, other) = join(
        rt,
        || matches!(asks(rt, alloc, address, exchanges), Ok(true)),
        || matches!(asks(rt, alloc, address, exchanges), Ok(true)),
    );
    Ok(one && other)
}

fn two_connections<R: Net<Stream = TcpStream, Listener = TcpListener>>(
    rt: &R,
    alloc: Global,
    address: SocketAddr,
) -> io::Result<bool> {
    let mut one = TcpStream::connect(rt, address)?;
    let mut other = TcpStream::connect(rt, address)?;
    Ok(
        ask_all(alloc, &mut other, &QUERIES_NOTHING)?
            && ask_all(alloc, &mut one, &SUBMITS)?
            && ask(alloc, &mut other, SERVICES, ONE_SERVICE)?,
    )
}

/// The client that connects first is served. What the other one submits is in no count of the server's last lines.
fn one_more_than_sessions<R: Net<Stream = TcpStream, Listener = TcpListener>>(
    rt: &R,
    alloc: Global,
    address: SocketAddr,
) -> io::Result<bool> {
    let mut first = TcpStream::connect(rt, address)?;
    let mut second = TcpStream::connect(rt, address)?;
    second.write_all(POST)?;
    second.write_all(BATCH)?;
    ask_all(alloc, &mut first, &SUBMITS_AND_QUERIES)
}

fn submits_and_queries<R: Net<Stream = TcpStream, Listener = TcpListener>>(
    rt: &R,
    alloc: Global,
    address: SocketAddr,
) -> io::Result<bool> {
    let mut stream = TcpStream::connect(rt, address)?;
    for _ in 0..5 {
        if !ask_all(alloc, &mut stream, &SUBMITS_AND_QUERIES)? {
            return Ok(false);
        }
    }
    Ok(true)
}

fn eight<R: Threads + Net<Stream = TcpStream, Listener = TcpListener> + Sync>(
    rt: &R,
    alloc: Global,
    address: SocketAddr,
) -> io::Result<bool> {
    let as_expected = map_indices(
        rt,
        alloc,
        8,
        &|_| -> bool { matches!(submits_and_queries(rt, alloc, address), Ok(true)) },
    )?;
    Ok(as_expected.iter().all(|it| *it))
}

fn bad_neighbours<R: Net<Stream = TcpStream, Listener = TcpListener>>(
    rt: &R,
    alloc: Global,
    address: SocketAddr,
) -> io::Result<bool> {
    let mut stalled = TcpStream::connect(rt, address)?;
    stalled.write_all(b"GET /api/ser")?;
    let mut gone = TcpStream::connect(rt, address)?;
    let half = joined(alloc, &[POST, b"\x0c\x00\x01"])?;
    gone.write_all(half.as_slice())?;
    drop(gone);
    let served = submits_and_queries(rt, alloc, address)?;
    let mut rest = Vec::new(alloc);
    let ended = stalled.read_to_end(&mut rest).is_ok() && rest.is_empty();
    Ok(served && ended)
}

fn two_hundred<R: Net<Stream = TcpStream, Listener = TcpListener>>(
    rt: &R,
    alloc: Global,
    address: SocketAddr,
) -> io::Result<bool> {
    let mut streams = Vec::new(alloc);
    for _ in 0..200 {
        streams.push(TcpStream::connect(rt, address)?)?;
    }
    for stream in &mut streams {
        if !ask_all(alloc, stream, &SUBMITS_AND_QUERIES)? {
            return Ok(false);
        }
    }
    for stream in &mut streams {
        if !ask(alloc, stream, SERVICES, ONE_SERVICE)? {
            return Ok(false);
        }
    }
    Ok(true)
}

fn sends_on<R: Net<Stream = TcpStream, Listener = TcpListener>>(
    rt: &R,
    alloc: Global,
    address: SocketAddr,
) -> io::Result<bool> {
    let mut stream = TcpStream::connect(rt, address)?;
    stream.write_all(HUGE)?;
    let piece = [7u8; 4096];
    for _ in 0..200 {
        stream.write_all(&piece)?;
    }
    Ok(reads(alloc, &mut stream, TOO_LARGE)? && ends(alloc, &mut stream)?)
}
