//! A map that counts what is done to it, over a map of any kind.
//!
//! This is all that a map of your own needs: to be a [`MapKind`]. Its ghost member `seen` says what the map is, however it
//! keeps that; each method then has the trait's contract, which the checker proves of its body.

ghost use Rattle.std.specs.Prelude.{◌≡◌};

use bt_mapkind::{Back, MapAttr, MapFault, MapKind, MapOp, MapReply, Query};
use std::alloc::Global;
use std::sync::Arc;
use std::sync::atomic::{AtomicU64, Ordering};

/// How often a map was asked, changed and turned: whoever shares it reads it while a book owns the map.
#[derive(Drop)]
pub(crate) struct Counts {
    reads: AtomicU64,
    changes: AtomicU64,
    turns: AtomicU64,
}

impl Counts {
    /// Nothing was done yet.
    pub(crate) fn new() -> Counts {
        Counts {
            reads: AtomicU64::new(0),
            changes: AtomicU64::new(0),
            turns: AtomicU64::new(0),
        }
    }

    /// How many questions it was asked.
    pub(crate) fn reads(&self) -> u64 {
        self.reads.load(Ordering::SeqCst)
    }

    /// How many operations were tried on it, those among them that it refused.
    pub(crate) fn changes(&self) -> u64 {
        self.changes.load(Ordering::SeqCst)
    }

    /// How often an undo, a redo or a taking out put something back.
    pub(crate) fn turns(&self) -> u64 {
        self.turns.load(Ordering::SeqCst)
    }
}

/// A map of another kind, with counts of what is done to it.
#[derive(Drop)]
pub(crate) struct WatchedKind<K: MapKind> {
    inner: K,
    counts: Arc<Counts, Global>,
}

impl<K: MapKind> WatchedKind<K> {
    /// Counts into `counts`, and acts as the map that it wraps otherwise.
    pub(crate) fn new(inner: K, counts: Arc<Counts, Global>) -> WatchedKind<K>
        ensures { result.inner ≡ inner }
    {
        WatchedKind { inner, counts }
    }
}

impl<K: MapKind> MapKind for WatchedKind<K> {
    ghost seen = { λ map. K.seen map.inner };

    fn attr(&self) -> MapAttr {
        self.inner.attr()
    }

    fn charge(&self) -> u64 {
        self.inner.charge()
    }

    fn is_fresh(&self) -> bool {
        self.inner.is_fresh()
    }

    fn read(&self, query: &Query) -> Result<MapReply, MapFault> {
        let _ = self.counts.reads.fetch_add(1, Ordering::SeqCst);
        self.inner.read(query)
    }

    fn change(&mut self, op: &MapOp) -> Result<(MapReply, Back), MapFault> {
        let _ = self.counts.changes.fetch_add(1, Ordering::SeqCst);
        self.inner.change(op)
    }

    fn fits(&self, back: &Back) -> bool {
        self.inner.fits(back)
    }

    fn turn(&mut self, back: &mut Back) {
        let _ = self.counts.turns.fetch_add(1, Ordering::SeqCst);
        self.inner.turn(back);
    }
}
