//! A map of a caller's own in a journal: a hash that counts how often it was asked, changed and turned. The program makes one,
//! changes it, takes one change back and another one out, and prints what it counted.
#![tactic(auto)]

mod changes;
mod watched;

use anyhow::bail;
use bt_hash::HashKind;
use bt_journal::{Book, Limits};
use bt_mapkind::MapKind;
use bt_without::without;
use changes::{ADDRESSES, create, update};
use host_state::Change;
use host_words::Word;
use std::alloc::Global;
use std::sync::Arc;
use watched::{Counts, WatchedKind};

// A book that keeps 1,000 moments of a host with the device eth0.
fn new_book<K: MapKind>(alloc: Global) -> anyhow::Result<Book<K>> {
    let mut devices = Vec::new(alloc);
    devices.push(Word::new(alloc, b"eth0")?)?;
    let limits = Limits {
        journal: 1_000,
        budget: 1_000_000,
        last_id: 100,
        last_serial: 1_000_000,
    };
    match Book::new(alloc, devices, limits) {
        Ok(book) => Ok(book),
        Err(fault) => bail!("no book: {fault:?}"),
    }
}

// Records a change, with a box if it makes a map: its serial.
fn record<K: MapKind>(book: &mut Book<K>, change: Change, kind: Option<K>) -> anyhow::Result<u64> {
    match book.record(change, kind) {
        Ok((serial, _)) => Ok(serial),
        Err(refusal) => bail!("refused: {refusal:?}"),
    }
}

// Prints what a map counted up to here.
fn print<R: Print>(rt: &R, behind: &str, counts: &Counts) -> anyhow::Result<()> {
    let (reads, changes, turns) = (counts.reads(), counts.changes(), counts.turns());
    println!(rt; "{behind}: {reads} read, {changes} changed, {turns} turned")?;
    Ok(())
}

// Makes the map, changes it, takes the last change back and the first one out, and prints after each what the map counted.
fn show<R: Print>(
    rt: &R,
    alloc: Global,
    book: &mut Book<WatchedKind<HashKind>>,
    watched: WatchedKind<HashKind>,
    counts: &Counts,
) -> anyhow::Result<()> {
    record(book, create(alloc)?, Some(watched))?;
    let first = record(book, update(alloc, 1, 10)?, None)?;
    record(book, update(alloc, 2, 20)?, None)?;
    record(book, update(alloc, 3, 30)?, None)?;
    print(rt, "three updates", counts)?;
    if book.undo_last().is_err() {
        bail!("nothing to undo");
    }
    print(rt, "the last one undone", counts)?;
    if without(book, first).is_err() {
        bail!("the first update cannot be taken out");
    }
    print(rt, "the first one taken out", counts)
}

// A new hash that counts here.
fn new_map(alloc: Global, counts: &Arc<Counts, Global>) -> anyhow::Result<WatchedKind<HashKind>> {
    let shared = counts.clone()?;
    match HashKind::new(alloc, ADDRESSES) {
        Ok(hash) => Ok(WatchedKind::new(hash, shared)),
        Err(_) => bail!("no memory for the map"),
    }
}

fn main(rt: HostRuntime) -> anyhow::Result<()> {
    let alloc = rt.alloc();
    let counts = Arc::new(alloc, Counts::new())?;
    let map = new_map(alloc, &counts)?;
    let mut book = new_book(alloc)?;
    show(&rt, alloc, &mut book, map, &counts)
}
