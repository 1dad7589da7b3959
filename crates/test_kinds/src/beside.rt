//! Each kind of map beside a plain one: thousands of changes and turnings of both, what each answers or why it is refused, and
//! the exchange that takes it back.

use crate::plain::{ANY, Change, EXIST, Entry, Exchange, KEYS, NOEXIST, Plain};
use bt_array::ArrayKind;
use bt_hash::HashKind;
use bt_lpm::LpmKind;
use bt_mapkind::{
    Back, Bytes, KeptBack, MapAttr, MapFault, MapKind, MapOp, MapReply, MapType, Query,
};
use bt_nested::{HashOuterKind, OuterKind};
use std::alloc::Global;
use std::process::Abort;

// The bytes of a key as it is stored: an index, one of eight prefixes of 3, 7 .. 31 bits of an address, or a number with the
// highest byte first.
fn key(alloc: Global, kind: MapType, number: u32) -> Bytes {
    let low = (number % 64) as u8;
    match kind {
        MapType::Array | MapType::ArrayOfMaps => Bytes::short(alloc, &[low, 0, 0, 0]),
        MapType::LpmTrie => Bytes::short(alloc, &[low / 8 * 4 + 3, 0, 0, 0, low % 8 * 32, 0, 0, 0]),
        _ => Bytes::short(alloc, &[0, 0, 0, low]),
    }
}

// The bytes of a key as it is asked for: those of a prefix with a bit after it.
fn asked_key(alloc: Global, kind: MapType, number: u32) -> Bytes {
    let low = (number % 64) as u8;
    match kind {
        MapType::LpmTrie => Bytes::short(alloc, &[low / 8 * 4 + 3, 0, 0, 0, low % 8 * 32, 0, 0, 1]),
        _ => key(alloc, kind, number),
    }
}

fn bytes(alloc: Global, value: u32) -> Bytes {
    Bytes::short(alloc, &value.to_le_bytes())
}

fn has_ids(kind: MapType) -> bool {
    matches!(kind, MapType::ArrayOfMaps | MapType::HashOfMaps)
}

fn op_of(alloc: Global, kind: MapType, change: Change) -> MapOp {
    let key = asked_key(alloc, kind, change.exchange.number);
    let flag = change.flag;
    match change.exchange.value {
        None => MapOp::Delete { key },
        Some(id) if has_ids(kind) => MapOp::SetLink { key, id, flag },
        Some(value) => MapOp::Update {
            key,
            value: bytes(alloc, value),
            flag,
        },
    }
}

fn back_of(alloc: Global, kind: MapType, exchange: Exchange) -> Back {
    let key = key(alloc, kind, exchange.number);
    if has_ids(kind) {
        return Back::Link {
            key,
            id: exchange.value,
        };
    }
    Back::Key {
        key,
        value: match exchange.value {
            Some(value) => Some(bytes(alloc, value)),
            None => None,
        },
    }
}

// The answer that tells an entry: a look-up in a map of ids tells the id, and a dump of one the key.
fn reply_of(alloc: Global, kind: MapType, entry: Entry, is_dump: bool) -> MapReply {
    let key = key(alloc, kind, entry.number);
    match (has_ids(kind), is_dump) {
        (false, _) => MapReply::Found {
            key,
            value: bytes(alloc, entry.value),
        },
        (true, false) => MapReply::Link(entry.value),
        (true, true) => MapReply::Key(key),
    }
}

// The answer to a look-up.
fn look_up_of(alloc: Global, plain: &Plain, number: u32) -> MapReply {
    let Some(number) = plain.found(number) else {
        return MapReply::Nothing;
    };
    match plain.get(number) {
        Some(value) => reply_of(alloc, plain.kind, Entry { number, value }, false),
        None => MapReply::Nothing,
    }
}

// Makes a change; the exchange that takes it back, or why it was not done.
fn changed<K: MapKind>(rt: &impl Abort, kind: &mut K, op: &MapOp) -> Result<Back, MapFault> {
    match kind.change(op) {
        Ok((reply, back)) => {
            assert!(rt; matches!(&reply, MapReply::Done));
            Ok(back)
        }
        Err(fault) => Err(fault),
    }
}

// Makes a change with the exchange kept in a block; the exchange, or why it was not done.
fn changed_in_block<K: MapKind>(
    rt: &impl Abort,
    alloc: Global,
    kind: &mut K,
    op: &MapOp,
) -> Result<Back, MapFault> {
    let attr = kind.attr();
    let value_size = attr.value_size as usize;
    let room = value_size.max(attr.key_size as usize) + value_size;
    let mut kept = KeptBack::with_room(alloc, room).expect(rt, "a block");
    match kind.change_into(op, &mut kept) {
        Ok(()) => Ok(kept.back()),
        Err(fault) => Err(fault),
    }
}

// Makes an exchange in both if it fits, on which both agree.
fn turned<K: MapKind>(
    rt: &impl Abort,
    alloc: Global,
    kind: &mut K,
    plain: &mut Plain,
    exchange: Exchange,
) -> Exchange {
    let mut back = back_of(alloc, plain.kind, exchange);
    let fits = kind.fits(&back);
    assert!(rt; fits == plain.fits(exchange));
    if !fits {
        return exchange;
    }
    kind.turn(&mut back);
    let before = plain.turn(rt, exchange);
    assert!(rt; back == back_of(alloc, plain.kind, before));
    before
}

// Why a change was not done, if it was not.
fn refusal(done: &Result<Back, MapFault>) -> Option<MapFault> {
    match done {
        Ok(_) => None,
        Err(fault) => Some(*fault),
    }
}

// Makes a change in both, which agree whether it is done and why not: the exchange that takes it back, or the last one.
fn change_both<K: MapKind>(
    rt: &impl Abort,
    alloc: Global,
    kind: &mut K,
    plain: &mut Plain,
    change: Change,
    last: Exchange,
    is_kept: bool,
) -> Exchange {
    let op = op_of(alloc, plain.kind, change);
    let done = if is_kept {
        changed_in_block(rt, alloc, kind, &op)
    } else {
        changed(rt, kind, &op)
    };
    assert!(rt; refusal(&done) == plain.fault(change).map(MapFault::Errno));
    let Ok(back) = done else {
        return last;
    };
    let before = plain.turn(rt, change.exchange);
    assert!(rt; back == back_of(alloc, plain.kind, before));
    before
}

// Of four numbers noexist and exist have one each, and any has two.
fn flag_of(random: u32) -> u64 {
    match random % 4 {
        0 => NOEXIST,
        1 => EXIST,
        _ => ANY,
    }
}

// Turns an exchange that was kept, or makes a change, in both: the exchange that takes it back.
fn step<K: MapKind>(
    rt: &impl Abort,
    alloc: Global,
    kind: &mut K,
    plain: &mut Plain,
    last: Exchange,
    random: u32,
) -> Exchange {
    let value = match random / 16_777_216 % 4 {
        0 => return turned(rt, alloc, kind, plain, last),
        1 => None,
        _ => Some(random),
    };
    let exchange = Exchange {
        number: random / 65_536 % KEYS,
        value,
    };
    let change = Change {
        exchange,
        flag: flag_of(random / 67_108_864),
    };
    let is_kept = random / 256 % 2 == 0;
    change_both(rt, alloc, kind, plain, change, last, is_kept)
}

fn tells<K: MapKind>(rt: &impl Abort, kind: &K, query: &Query, reply: &MapReply) {
    match kind.read(query) {
        Ok(told) => assert!(rt; told == *reply),
        Err(_) => assert!(rt; false),
    }
}

// From a key, or from none, the next one comes. An array of maps goes by its indices, whatever stands there.
fn comes_next<K: MapKind>(rt: &impl Abort, kind: &K, last: Option<Bytes>, next: Option<Bytes>) {
    if kind.attr().kind != MapType::ArrayOfMaps {
        tells(rt, kind, &Query::Next(last), &MapReply::of_key(next));
    }
}

// Both list the same and as many, and from each key the same comes next.
fn list_the_same<K: MapKind>(rt: &impl Abort, alloc: Global, kind: &K, plain: &Plain) {
    let mut last = None;
    let mut place = 0u32;
    for entry in &plain.entries {
        let item = reply_of(alloc, plain.kind, *entry, true);
        tells(rt, kind, &Query::Item(place), &item);
        let next = key(alloc, plain.kind, entry.number);
        comes_next(rt, kind, last, Some(next.copy()));
        last = Some(next);
        place = place.saturating_add(1);
    }
    tells(rt, kind, &Query::Item(place), &MapReply::Nothing);
    comes_next(rt, kind, last, None);
    tells(rt, kind, &Query::Count, &MapReply::Count(place));
}

// Ten thousand changes and turnings at random leave the same in a new map and in a plain one. Every fourth exchange is kept, to
// be turned until the next one is.
fn agrees<K: MapKind>(rt: &impl Abort, alloc: Global, mut kind: K) {
    let mut plain = Plain::new(rt, alloc, kind.attr());
    let mut last = Exchange {
        number: 0,
        value: Some(0),
    };
    let mut random = 1u32;
    for count in 0..10_000 {
        random = random.wrapping_mul(1_664_525).wrapping_add(1_013_904_223);
        let back = step(rt, alloc, &mut kind, &mut plain, last, random);
        if random / 4_096 % 4 == 0 {
            last = back;
        }
        let number = random / 65_536 % KEYS;
        let asked = Query::Lookup(asked_key(alloc, plain.kind, number));
        let reply = look_up_of(alloc, &plain, number);
        tells(rt, &kind, &asked, &reply);
        if count % 100 == 0 {
            list_the_same(rt, alloc, &kind, &plain);
        }
    }
}

const fn attr(kind: MapType, key_size: u32, max_entries: u32, flags: u32) -> MapAttr {
    MapAttr {
        kind,
        key_size,
        value_size: 4,
        max_entries,
        flags,
    }
}

#[test]
fn an_array(rt: HostRuntime) {
    let attr = attr(MapType::Array, 4, KEYS, 0);
    let kind = ArrayKind::new(rt.alloc(), attr).expect(&rt, "an array");
    agrees(&rt, rt.alloc(), kind);
}

#[test]
fn a_hash(rt: HostRuntime) {
    let attr = attr(MapType::Hash, 4, 36, 0);
    let kind = HashKind::new(rt.alloc(), attr).expect(&rt, "a hash");
    agrees(&rt, rt.alloc(), kind);
}

#[test]
fn an_lpm_trie(rt: HostRuntime) {
    let attr = attr(MapType::LpmTrie, 8, 36, 1);
    let kind = LpmKind::new(rt.alloc(), attr).expect(&rt, "a trie");
    agrees(&rt, rt.alloc(), kind);
}

#[test]
fn an_array_of_maps(rt: HostRuntime) {
    let attr = attr(MapType::ArrayOfMaps, 4, KEYS, 0);
    let kind = OuterKind::new(rt.alloc(), attr).expect(&rt, "an array of maps");
    agrees(&rt, rt.alloc(), kind);
}

#[test]
fn a_hash_of_maps(rt: HostRuntime) {
    let attr = attr(MapType::HashOfMaps, 4, 36, 0);
    let kind = HashOuterKind::new(rt.alloc(), attr).expect(&rt, "a hash of maps");
    agrees(&rt, rt.alloc(), kind);
}
