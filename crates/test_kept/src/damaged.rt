//! What is told of a database whose rows were changed by hand.

use crate::kept::{kept, opened};
use kept_file::{OpenFault, ReadFault};
use sqlite::{Connection, MemStore};
use std::alloc::Global;
use std::process::Abort;

// Changes a database by hand.
fn changed(rt: &impl Abort, conn: &mut Connection<MemStore>, sql: &str) {
    assert!(rt; conn.execute(sql, &[]).is_ok());
}

// What is told of a kept book that was changed so.
fn told(rt: &impl Abort, alloc: Global, sql: &str) -> Option<OpenFault> {
    let mut conn = kept(rt, alloc);
    changed(rt, &mut conn, sql);
    opened(alloc, &mut conn).err()
}

#[test]
fn a_changed_database_is_told(rt: HostRuntime) {
    for (sql, fault) in [
        (
            "DELETE FROM event WHERE place = 4",
            OpenFault::Ledger(ReadFault::DoesNotFit(4)),
        ),
        (
            "UPDATE event SET place = -1 WHERE place = 4",
            OpenFault::Ledger(ReadFault::DoesNotFit(1)),
        ),
        (
            "UPDATE event SET verb = 'noted' WHERE place = 2",
            OpenFault::Ledger(ReadFault::DoesNotFit(2)),
        ),
        (
            "UPDATE event SET serial = 9 WHERE place = 5",
            OpenFault::DoesNotFit(5),
        ),
        (
            "UPDATE book SET format = 2",
            OpenFault::Ledger(ReadFault::LaterFormat(2)),
        ),
        ("DELETE FROM book", OpenFault::Ledger(ReadFault::NoTerms)),
        ("DROP TABLE event", OpenFault::Ledger(ReadFault::NoBook)),
    ] {
        let found = told(&rt, rt.alloc(), sql);
        assert!(rt; found == Some(fault), "{sql}");
    }
}

#[test]
fn an_empty_database_has_no_book(rt: HostRuntime) {
    let mut conn = Connection::open_in_memory(rt.alloc()).expect(&rt, "a database");
    let found = opened(rt.alloc(), &mut conn).err();
    assert!(rt; found == Some(OpenFault::Ledger(ReadFault::NoBook)));
}
