//! A server and its clients over real sockets.

use crate::tests::clients::Clients;
use crate::tests::first_waits::FirstWaits;
use crate::tests::server::{config, run_with_clients};
use std::test::*;
use trace_server::NoObserver;

/// The name of a run of a server; its workers, its sessions, the seconds after which it closes a silent connection, and
/// the batches that its store has room for; its clients; and its last lines.
type Run = (&'static str, (u16, u32, u32, u32), Clients, &'static [u8]);

/// The runs. [`Clients`] says what the clients of each do.
const RUNS: [Run; 14] = [
    (
        "a_batch_is_found",
        (1, 1, 10, 100),
        Clients::One,
        b"\nserved 1\nbooks 1 0 0\n",
    ),
    (
        "across_workers",
        (2, 2, 10, 100),
        Clients::TwoConnections,
        b"\nserved 2\nbooks 1 0 0\n",
    ),
    (
        "no_more_than_its_sessions",
        (2, 1, 10, 100),
        Clients::OneMoreThanSessions,
        b"\nserved 1\nbooks 1 0 0\n",
    ),
    (
        "eight_clients_at_once",
        (3, 8, 10, 100),
        Clients::Eight,
        b"\nserved 8\nbooks 40 0 0\n",
    ),
    (
        "two_hundred_connections_and_two_workers",
        (2, 200, 10, 300),
        Clients::TwoHundred,
        b"\nserved 200\nbooks 200 0 0\n",
    ),
    (
        "bad_neighbours_harm_nobody",
        (2, 3, 1, 100),
        Clients::BadNeighbours,
        b"\nserved 3\nbooks 5 0 0\n",
    ),
    (
        "a_closing_response_arrives",
        (1, 1, 10, 100),
        Clients::SendsOn,
        b"\nserved 1\nbooks 0 0 0\n",
    ),
    (
        "a_batch_in_each_of_two_sessions",
        (1, 2, 10, 100),
        Clients::TwoSessions,
        b"\nserved 2\nbooks 2 0 0\n",
    ),
    (
        "one_batch_too_many",
        (1, 1, 10, 1),
        Clients::OneTooMany,
        b"\nserved 1\nbooks 1 1 0\n",
    ),
    (
        "a_batch_sent_twice",
        (1, 1, 10, 100),
        Clients::Repeats,
        b"\nserved 1\nbooks 2 0 0\n",
    ),
    (
        "a_batch_sent_again_to_a_full_store",
        (1, 1, 10, 1),
        Clients::Repeats,
        b"\nserved 1\nbooks 2 0 0\n",
    ),
    (
        "a_batch_sent_twice_at_once",
        (2, 2, 10, 1),
        Clients::RepeatAtOnce,
        b"\nserved 2\nbooks 2 0 0\n",
    ),
    (
        "a_number_used_for_another_batch",
        (1, 1, 10, 100),
        Clients::Conflicts,
        b"\nserved 1\nbooks 2 1 0\n",
    ),
    (
        "refused_requests",
        (1, 1, 10, 100),
        Clients::Refused,
        b"\nserved 1\nbooks 0 0 0\n",
    ),
];

#[test]
fn each_run_is_well(rt: HostRuntime) -> Result<(), Fail> {
    for (name, (workers, sessions, idle, batches), clients, last_lines) in RUNS {
        let server = config(&rt, workers, sessions, idle, batches);
        let outcome = run_with_clients(&rt, rt.alloc(), &server, &NoObserver, clients)?;
        assert!(rt; outcome.is_well(last_lines), "{name}");
    }
    Ok(())
}

/// Two workers serve at the same time: the first call waits until another one was answered.
#[test]
fn two_workers_at_once(rt: HostRuntime) -> Result<(), Fail> {
    let config = config(&rt, 2, 2, 10, 100);
    let observer = FirstWaits::new();
    let outcome = run_with_clients(&rt, rt.alloc(), &config, &observer, Clients::TwoAtOnce)?;
    assert!(rt; outcome.is_well(b"\nserved 2\nbooks 0 0 0\n"));
    assert!(rt; observer.saw_another());
    Ok(())
}
