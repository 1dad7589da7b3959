//! Times the calls of a hash map with keys of four and values of eight bytes: with keys without order, and with keys that
//! all share a bucket. Then those of an LPM trie with prefixes of IPv4 addresses. What the calls did goes to standard
//! output, how long one took to standard error.
#![tactic(auto)]

mod calls;
mod keys;
mod prefixes;
mod rows;

use anyhow::bail;
use bt_hash::{HashKind, Table};
use bt_lpm::LpmKind;
use bt_mapkind::{Bytes, MapAttr, MapType};
use calls::{Call, Called};
use keys::{colliding, reordered, shuffled};
use prefixes::{Prefix, addresses, mixed};
use rows::{filled, held};
use std::alloc::Global;
use std::env;
use std::rt::{Clock, Env};
use std::time::{Duration, Instant};

/// The logarithm of how many keys there are, if no argument says it.
const BITS: u32 = 10;

// Makes a call with each key; how often the map did it.
fn all(map: &mut Called<HashKind>, alloc: Global, call: Call, keys: &[u32]) -> u64 {
    let mut count = 0;
    for key in keys {
        let bytes = Bytes::short(alloc, &key.to_le_bytes());
        if map.call(alloc, call, bytes, (*key).into()) {
            count += 1;
        }
    }
    count
}

// Prints how often something was done, and how long it took each time.
fn print<R: Print + Eprint>(rt: &R, words: &str, count: u64, took: Duration) -> anyhow::Result<()> {
    let nanoseconds = u64::try_from(took.as_nanos()).unwrap_or(u64::MAX);
    let each = nanoseconds / count.max(1);
    println!(rt; "{words}: {count}")?;
    eprintln!(rt; "{words}: {each} ns")?;
    Ok(())
}

// Makes a call with each key, and prints what came of it.
fn time<R: Print + Eprint + Clock>(
    rt: &R,
    map: &mut Called<HashKind>,
    alloc: Global,
    call: Call,
    words: &str,
    keys: &[u32],
) -> anyhow::Result<()> {
    let start = Instant::now(rt)?;
    let count = all(map, alloc, call, keys);
    print(rt, words, count, start.elapsed(rt)?)
}

// Prints what the lines after it are of.
fn print_heading<R: Print + Eprint>(rt: &R, heading: &str) -> anyhow::Result<()> {
    println!(rt; "{heading}")?;
    eprintln!(rt; "{heading}")?;
    Ok(())
}

// How many entries a map for so many keys has.
fn entries_for(count: usize) -> u32 {
    u32::try_from(count).unwrap_or(u32::MAX).min(65_536)
}

// A map for so many keys of four bytes.
fn hash(alloc: Global, count: usize) -> anyhow::Result<Called<HashKind>> {
    let attr = MapAttr {
        kind: MapType::Hash,
        key_size: 4,
        value_size: 8,
        max_entries: entries_for(count),
        flags: 0,
    };
    match HashKind::new(alloc, attr) {
        Ok(map) => Ok(Called::new(alloc, map)?),
        Err(_) => bail!("no memory for the map"),
    }
}

// Puts keys into a map, looks them up, puts other values, and takes them out.
fn time_map<R: Print + Eprint + Clock>(
    rt: &R,
    alloc: Global,
    map: &mut Called<HashKind>,
    keys: &[u32],
    others: &[u32],
) -> anyhow::Result<()> {
    time(rt, map, alloc, Call::Insert, "inserted", keys)?;
    time(rt, map, alloc, Call::LookUp, "found", others)?;
    time(rt, map, alloc, Call::Update, "updated", others)?;
    time(rt, map, alloc, Call::Delete, "deleted", others)
}

// Looks keys up in a table alone.
fn time_rows<R: Print + Eprint + Clock>(
    rt: &R,
    alloc: Global,
    table: &Table,
    keys: &[u32],
) -> anyhow::Result<()> {
    let start = Instant::now(rt)?;
    let count = held(table, alloc, keys);
    print(rt, "held", count, start.elapsed(rt)?)
}

// Times a map of these keys; `others` are the keys in another order.
fn run_map<R: Print + Eprint + Clock>(
    rt: &R,
    alloc: Global,
    keys: &[u32],
    others: &[u32],
) -> anyhow::Result<()> {
    let mut map = hash(alloc, keys.len())?;
    time_map(rt, alloc, &mut map, keys, others)
}

// Times a table of these keys.
fn run_rows<R: Print + Eprint + Clock>(
    rt: &R,
    alloc: Global,
    keys: &[u32],
    others: &[u32],
) -> anyhow::Result<()> {
    let table = filled(alloc, keys)?;
    time_rows(rt, alloc, &table, others)
}

// Times both under a heading.
fn run<R: Print + Eprint + Clock>(
    rt: &R,
    alloc: Global,
    heading: &str,
    keys: &[u32],
) -> anyhow::Result<()> {
    print_heading(rt, heading)?;
    let others = reordered(alloc, keys)?;
    run_map(rt, alloc, keys, &others)?;
    run_rows(rt, alloc, keys, &others)
}

// Makes a call with each prefix, and prints what came of it.
fn time_prefixes<R: Print + Eprint + Clock>(
    rt: &R,
    map: &mut Called<LpmKind>,
    alloc: Global,
    call: Call,
    words: &str,
    prefixes: &[Prefix],
) -> anyhow::Result<()> {
    let start = Instant::now(rt)?;
    let count = prefixes::all(map, alloc, call, prefixes);
    print(rt, words, count, start.elapsed(rt)?)
}

// A trie for so many prefixes.
fn trie(alloc: Global, count: usize) -> anyhow::Result<Called<LpmKind>> {
    let attr = MapAttr {
        kind: MapType::LpmTrie,
        key_size: 8,
        value_size: 8,
        max_entries: entries_for(count),
        flags: 1,
    };
    match LpmKind::new(alloc, attr) {
        Ok(map) => Ok(Called::new(alloc, map)?),
        Err(_) => bail!("no memory for the map"),
    }
}

// Puts prefixes into a map, looks their addresses up, and takes the prefixes out.
fn time_trie<R: Print + Eprint + Clock>(
    rt: &R,
    alloc: Global,
    map: &mut Called<LpmKind>,
    prefixes: &[Prefix],
    others: &[Prefix],
) -> anyhow::Result<()> {
    time_prefixes(rt, map, alloc, Call::Insert, "inserted", prefixes)?;
    time_prefixes(rt, map, alloc, Call::LookUp, "found", others)?;
    time_prefixes(rt, map, alloc, Call::Delete, "deleted", prefixes)
}

// Times a map of these prefixes; `others` are their addresses.
fn run_trie<R: Print + Eprint + Clock>(
    rt: &R,
    alloc: Global,
    prefixes: &[Prefix],
    others: &[Prefix],
) -> anyhow::Result<()> {
    let mut map = trie(alloc, prefixes.len())?;
    time_trie(rt, alloc, &mut map, prefixes, others)
}

// Times it under a heading.
fn run_prefixes<R: Print + Eprint + Clock>(
    rt: &R,
    alloc: Global,
    heading: &str,
    prefixes: &[Prefix],
) -> anyhow::Result<()> {
    print_heading(rt, heading)?;
    let others = addresses(alloc, prefixes)?;
    run_trie(rt, alloc, prefixes, &others)
}

// The logarithm of how many keys there are.
fn bits<R: Env + AllocGlobal>(rt: &R) -> anyhow::Result<u32> {
    let word = env::args(rt)?.nth(1);
    Ok(word.and_then(|word| word.parse().ok()).unwrap_or(BITS))
}

fn main(rt: HostRuntime) -> anyhow::Result<()> {
    let alloc = rt.alloc();
    let count = 1 << bits(&rt)?.min(16);
    run(&rt, alloc, "shuffled keys", &shuffled(alloc, count)?)?;
    run(&rt, alloc, "colliding keys", &colliding(alloc, count)?)?;
    run_prefixes(&rt, alloc, "mixed prefixes", &mixed(alloc, count)?)
}
