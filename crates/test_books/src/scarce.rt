//! Lack of memory while a change is taken out: the book is as it was, and a repeat with memory takes the change out.

use crate::books::AnyMap;
use crate::growths::{THREE_KEYS, is_taken_out, written};
use bt_hash::HashKind;
use bt_mapkind::{Back, MapAttr, MapFault, MapKind, MapOp, MapReply, Query};
use std::alloc::Global;
use std::process::Abort;
use std::sync::Arc;
use std::sync::atomic::{AtomicU64, Ordering};

// A hash that has no memory for the change at which the count of those to come is one; none is counted at zero.
struct Scarce {
    kind: HashKind,
    left: Arc<AtomicU64, Global>,
}

impl Drop for Scarce {
    fn drop(self) {
        let Scarce { kind: _, left: _ } = self;
    }
}

impl MapKind for Scarce {
    ghost use Rattle.test_books.specs.Scarce.{scarce};

    ghost seen = { λ s. scarce (⟦<HashKind as MapKind>⟧.seen s.kind) };

    fn attr(&self) -> MapAttr {
        self.kind.attr()
    }

    fn charge(&self) -> u64 {
        self.kind.charge()
    }

    fn is_fresh(&self) -> bool {
        self.kind.is_fresh()
    }

    fn read(&self, query: &Query) -> Result<MapReply, MapFault> {
        self.kind.read(query)
    }

    fn change(&mut self, op: &MapOp) -> Result<(MapReply, Back), MapFault> {
        let left = self.left.load(Ordering::SeqCst);
        if left > 0 {
            self.left.store(left - 1, Ordering::SeqCst);
        }
        if left == 1 {
            return Err(MapFault::NoMemory);
        }
        self.kind.change(op)
    }

    fn fits(&self, back: &Back) -> bool {
        self.kind.fits(back)
    }

    fn turn(&mut self, back: &mut Back) {
        self.kind.turn(back);
    }
}

fn scarce_hash(rt: &impl Abort, alloc: Global, left: &Arc<AtomicU64, Global>) -> AnyMap {
    let kind = Scarce {
        kind: HashKind::new(alloc, THREE_KEYS).expect(rt, "a hash"),
        left: left.clone().expect(rt, "a share"),
    };
    Box::new(alloc, kind).ok().expect(rt, "a box")
}

fn repeats<K: MapKind>(
    rt: &impl Abort,
    alloc: Global,
    kind: K,
    left: &Arc<AtomicU64, Global>,
    at: u64,
) {
    let mut book = written(alloc, kind).expect(rt, "a book");
    left.store(at, Ordering::SeqCst);
    assert!(rt; is_taken_out(rt, alloc, &mut book));
    assert!(rt; left.load(Ordering::SeqCst) == 0);
}

// The first and the last of the changes that are done again has no memory.
#[test]
fn want_of_memory_in_the_middle_leaves_the_book(rt: HostRuntime) {
    for at in [1u64, 2] {
        let left = Arc::new(rt.alloc(), AtomicU64::new(0))
            .ok()
            .expect(&rt, "a counter");
        let kind = scarce_hash(&rt, rt.alloc(), &left);
        repeats::<AnyMap>(&rt, rt.alloc(), kind, &left, at);
    }
}
