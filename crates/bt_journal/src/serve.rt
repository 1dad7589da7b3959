//! What a frame and a running program ask of a book.

ghost use Rattle.std.specs.Prelude.{◌≡◌, IfOk, IsOk, None};
ghost use Rattle.bt_mapkind.specs.Seen.{NeverWantsMemory};
ghost use Rattle.bt_mapkind.specs.declared.request.Query.TheVariants.{Lookup};
ghost use Rattle.host_state.specs.declared.ask.Ask.TheVariants.{Attr, Map as AskMap};
ghost use Rattle.journal_model.specs.Book.{PlainBook, asked, OrNoMemory};
ghost use Rattle.journal_model.specs.Serve.{started, served, want_told, by_pointer, by_helper, operation, is_live_at, loaded, inner_told, lookup_found, lookup_read, looked_up, peeked, fetched, OrWant};
ghost use Rattle.journal_access.specs.Serving.{Reads};
ghost use Rattle.journal_model.specs.Plain.{now};
ghost use Rattle.journal_keeping.specs.Calls.{calls_refused};
ghost use Rattle.host_state.specs.Work.{CallsAtMost, walks, most_calls};
ghost use Rattle.bt_journal.specs.Recording.{MakesNone};
ghost use Rattle.bt_journal.specs.Undone.{calls_to_serve};
ghost use Rattle.bt_mapkind.specs.declared.request.MapOp.TheVariants.{Update, Delete, Push, Pop, Store, Atomic};

use crate::book::Book;
use bt_insn::Size;
use bt_mapkind::{AtomicOp, AtomicSize, Bytes, Errno, MapKind, MapReply, Query};
use bt_verify::Program;
use host_state::{Ask, AskReply, Change};
use host_words::{NoMemory, Word};
use journal_access::{
    AttrTold, atomic_by, delete_by, fetch_told, load_read, peek_told, pop_by, push_by, start_told,
    store_by, told_by_helper, told_by_pointer, told_or, update_by,
};
use journal_model::StartFault;
use program_access::{Access, AccessReply};

impl<K: MapKind> Book<K> {
    /// The program that a frame on a device starts, with the device's ifindex, which is from 1 in the order of the devices;
    /// none if no program is attached. NoDevice if there is no such device. Takes memory.
    pub fn start(&mut self, device: Word) -> Result<Option<(Program, u32)>, StartFault>
        ensures plain { OrNoMemory self.old.plain StartFault.NoMemory (self.old.plain, started self.old.plain device) (self.new.plain, result) }
        ensures work { self.new.work ≡ self.old.work }
    {
        match self.ask(&Ask::Start { device }) {
            Ok(AskReply::Started(program)) => Ok(program),
            Ok(told) => start_told(told),
            Err(_) => Err(StartFault::NoMemory),
        }
    }

    /// Does what a running program asks, and tells it the answer (bpf-helpers(7)). A change is recorded as the program's
    /// own, and is a moment like any other; a load, a lookup, a peek and a fetch change nothing.
    ///
    /// Gone if the map is not live, or, of a load, a store or an atomic operation, if its key is no longer there;
    /// OutOfRange if what these read or write does not lie within the value; of a helper its errno. If memory is
    /// wanted, the journal is full or the serials are spent, a helper other than a lookup is told ENOMEM and any other
    /// access Refused, whatever the map. Nothing has changed then. Takes memory, but for a load, a lookup or a peek if the
    /// room of each box was reserved.
    pub fn serve(&mut self, prog: u32, access: &Access) -> AccessReply
        ensures served { OrWant self.old.plain (want_told access.now) (served self.old.plain prog access.now) (self.new.plain, result) }
        ensures sure { NeverWantsMemory K.seen → Reads access.now → (self.new.plain, result) ≡ served self.old.plain prog access.now }
        ensures work { CallsAtMost (calls_to_serve access.now) self.old.work self.new.work }
    {
        match access {
            Access::Lookup { map, key, outer: _ } => self.look_up(*map, key),
            Access::Atomic {
                map,
                key,
                offset,
                size,
                op,
                operand,
            } => self.combine(prog, *map, key, *offset, *size, *op, *operand),
            _ => self.serve_any(prog, access),
        }
    }

    // Does any access. It stands apart, so that those that programs make most clear no room for the others' answers.
    #[inline(never)]
    fn serve_any(&mut self, prog: u32, access: &Access) -> AccessReply
        ensures served { OrWant self.old.plain (want_told access.now) (served self.old.plain prog access.now) (self.new.plain, result) }
        ensures sure { NeverWantsMemory K.seen → Reads access.now → (self.new.plain, result) ≡ served self.old.plain prog access.now }
        ensures work { CallsAtMost (calls_to_serve access.now) self.old.work self.new.work }
    {
        match access {
            Access::Load {
                map,
                key,
                offset,
                size,
            } => told_or(self.load(*map, key, *offset, *size), AccessReply::Refused),
            Access::Store {
                map,
                key,
                offset,
                bytes,
            } => self.store(prog, *map, key, *offset, bytes),
            Access::Atomic {
                map,
                key,
                offset,
                size,
                op,
                operand,
            } => self.combine(prog, *map, key, *offset, *size, *op, *operand),
            Access::Lookup { map, key, outer: _ } => self.look_up(*map, key),
            Access::Update {
                map,
                key,
                value,
                flag,
            } => self.update(prog, *map, key, value, *flag),
            Access::Delete { map, key } => self.delete(prog, *map, key),
            Access::Push { map, value, flag } => self.push(prog, *map, value, *flag),
            Access::Pop { map, value_size: _ } => self.pop(prog, *map),
            Access::Peek { map, value_size: _ } => {
                told_or(self.peek(*map), AccessReply::Errno(Errno::ENOMEM))
            }
            Access::Fetch { map, index } => {
                told_or(self.fetch(*map, *index), AccessReply::Errno(Errno::ENOMEM))
            }
        }
    }

    // A program stores bytes into a value, at an offset.
    fn store(&mut self, prog: u32, map: u32, key: &Bytes, offset: u64, bytes: &Bytes) -> AccessReply
        ensures told { OrWant self.old.plain AccessReply.Refused (by_pointer self.old.plain (operation prog map (Store key.now offset bytes.now))) (self.new.plain, result) }
        ensures work { CallsAtMost 2 self.old.work self.new.work }
    {
        let change = store_by(prog, map, key, offset, bytes);
        self.change_by_pointer(&change)
    }

    // A program does an atomic operation on a value, at an offset.
    fn combine(
        &mut self,
        prog: u32,
        map: u32,
        key: &Bytes,
        offset: u64,
        size: AtomicSize,
        op: AtomicOp,
        operand: u64,
    ) -> AccessReply
        ensures told { OrWant self.old.plain AccessReply.Refused (by_pointer self.old.plain (operation prog map (Atomic key.now offset size op operand))) (self.new.plain, result) }
        ensures work { CallsAtMost 2 self.old.work self.new.work }
    {
        let change = atomic_by(prog, map, key, offset, size, op, operand);
        self.change_by_pointer(&change)
    }

    // A program puts a value under a key.
    fn update(&mut self, prog: u32, map: u32, key: &Bytes, value: &Bytes, flag: u64) -> AccessReply
        ensures told { OrWant self.old.plain (AccessReply.Errno Errno.ENOMEM) (by_helper self.old.plain map (operation prog map (Update key.now value.now flag))) (self.new.plain, result) }
        ensures work { CallsAtMost 2 self.old.work self.new.work }
    {
        let change = update_by(prog, map, key, value, flag);
        self.change_by_helper(map, &change)
    }

    // A program takes a key out.
    fn delete(&mut self, prog: u32, map: u32, key: &Bytes) -> AccessReply
        ensures told { OrWant self.old.plain (AccessReply.Errno Errno.ENOMEM) (by_helper self.old.plain map (operation prog map (Delete key.now))) (self.new.plain, result) }
        ensures work { CallsAtMost 2 self.old.work self.new.work }
    {
        let change = delete_by(prog, map, key);
        self.change_by_helper(map, &change)
    }

    // A program puts a value into a queue or on a stack.
    fn push(&mut self, prog: u32, map: u32, value: &Bytes, flag: u64) -> AccessReply
        ensures told { OrWant self.old.plain (AccessReply.Errno Errno.ENOMEM) (by_helper self.old.plain map (operation prog map (Push value.now flag))) (self.new.plain, result) }
        ensures work { CallsAtMost 2 self.old.work self.new.work }
    {
        let change = push_by(prog, map, value, flag);
        self.change_by_helper(map, &change)
    }

    // A program takes the next value out of a queue or off a stack.
    fn pop(&mut self, prog: u32, map: u32) -> AccessReply
        ensures told { OrWant self.old.plain (AccessReply.Errno Errno.ENOMEM) (by_helper self.old.plain map (operation prog map Pop)) (self.new.plain, result) }
        ensures work { CallsAtMost 2 self.old.work self.new.work }
    {
        let change = pop_by(prog, map);
        self.change_by_helper(map, &change)
    }

    // Records a change that a program asks for through a pointer to a value.
    fn change_by_pointer(&mut self, change: &Change) -> AccessReply
        requires { MakesNone change.now }
        ensures told { OrWant self.old.plain AccessReply.Refused (by_pointer self.old.plain change.now) (self.new.plain, result) }
        ensures work { let state = now self.old.plain.line in
            CallsAtMost (calls_refused (walks state change.now) (most_calls state change.now)) self.old.work self.new.work }
    {
        told_by_pointer(self.record_lent(change))
    }

    // Records a change of a map that a program asks for by a helper.
    fn change_by_helper(&mut self, map: u32, change: &Change) -> AccessReply
        requires { MakesNone change.now }
        ensures told { OrWant self.old.plain (AccessReply.Errno Errno.ENOMEM) (by_helper self.old.plain map change.now) (self.new.plain, result) }
        ensures work { let state = now self.old.plain.line in
            CallsAtMost (calls_refused (walks state change.now) (most_calls state change.now)) self.old.work self.new.work }
    {
        let live = self.is_live(map);
        told_by_helper(live, self.record_lent(change))
    }

    // What the question for a map's attributes is answered.
    fn attr_told(&self, map: u32) -> AttrTold
        ensures { result ≡ asked self.now.plain (Attr map) }
    {
        AttrTold::new(self.attr(map))
    }

    // Whether a map is live.
    fn is_live(&self, map: u32) -> bool
        ensures { result ≡ is_live_at self.now.plain map }
    {
        self.attr_told(map).is_live()
    }

    // What a lookup of a key finds.
    fn look(&mut self, map: u32, key: &Bytes) -> Result<AskReply, NoMemory>
        ensures found { IfOk result (λ found. found ≡ asked self.old.plain (AskMap map (Lookup key.now))) }
        ensures room { NeverWantsMemory K.seen → IsOk result }
        ensures same { self.new.plain ≡ self.old.plain }
        ensures work { CallsAtMost 1 self.old.work self.new.work }
    {
        let query = Query::Lookup(key.copy());
        self.ask(&Ask::Map { id: map, query })
    }

    // A part of the value under a key, as a number.
    fn load(
        &mut self,
        map: u32,
        key: &Bytes,
        offset: u64,
        size: Size,
    ) -> Result<AccessReply, NoMemory>
        ensures told { IfOk result (λ told. told ≡ loaded self.old.plain map key.now offset size) }
        ensures room { NeverWantsMemory K.seen → IsOk result }
        ensures same { self.new.plain ≡ self.old.plain }
        ensures work { CallsAtMost 1 self.old.work self.new.work }
    {
        let attr = self.attr_told(map);
        if let Some(fault) = attr.load_fault() {
            return Ok(fault);
        }
        let found = self.look(map, key)?;
        Ok(load_read(key, offset, size, &found))
    }

    // A program looks a key up.
    fn look_up(&mut self, map: u32, key: &Bytes) -> AccessReply
        ensures told { OrWant self.old.plain AccessReply.Refused (self.old.plain, looked_up self.old.plain map key.now) (self.new.plain, result) }
        ensures sure { NeverWantsMemory K.seen → ◌≡◌ {A = PlainBook × AccessReply} (self.new.plain, result) (self.old.plain, looked_up self.old.plain map key.now) }
        ensures work { CallsAtMost 1 self.old.work self.new.work }
    {
        let attr = self.attr_told(map);
        if let Some(fault) = attr.lookup_fault() {
            return fault;
        }
        let query = Query::Lookup(key.copy());
        match self.ask(&Ask::Map { id: map, query }) {
            Ok(AskReply::Answered(MapReply::Found { key, value: _ })) => AccessReply::Found(key),
            Ok(told) => self.read_found(&told),
            Err(_) => AccessReply::Refused,
        }
    }

    // What a lookup is told if it found no value.
    #[inline(never)]
    fn read_found(&self, found: &AskReply) -> AccessReply
        ensures { result ≡ lookup_read self.now.plain found.now }
    {
        match found {
            AskReply::Answered(reply) => self.read_element(reply),
            AskReply::Refused(errno) => AccessReply::Errno(*errno),
            _ => AccessReply::Gone,
        }
    }

    // The key that was found, or the inner map.
    fn read_element(&self, reply: &MapReply) -> AccessReply
        ensures { result ≡ lookup_found self.now.plain reply.now }
    {
        match reply {
            MapReply::Found { key, value: _ } => AccessReply::Found(key.copy()),
            MapReply::Nothing => AccessReply::Nothing,
            MapReply::Link(id) => self.inner(*id),
            _ => AccessReply::Errno(Errno::EINVAL),
        }
    }

    // An inner map.
    fn inner(&self, id: u32) -> AccessReply
        ensures { result ≡ inner_told id (asked self.now.plain (Attr id)) }
    {
        self.attr_told(id).inner(id)
    }

    // The oldest item of a queue, or the newest of a stack.
    fn peek(&mut self, map: u32) -> Result<AccessReply, NoMemory>
        ensures told { IfOk result (λ told. told ≡ peeked self.old.plain map) }
        ensures room { NeverWantsMemory K.seen → IsOk result }
        ensures same { self.new.plain ≡ self.old.plain }
        ensures work { CallsAtMost 1 self.old.work self.new.work }
    {
        let live = self.is_live(map);
        let query = Query::Peek;
        let item = self.ask(&Ask::Map { id: map, query })?;
        Ok(peek_told(live, item))
    }

    // The program at an index of a program array.
    fn fetch(&mut self, map: u32, index: u32) -> Result<AccessReply, NoMemory>
        ensures told { IfOk result (λ told. told ≡ fetched self.old.plain map index) }
        ensures same { self.new.plain ≡ self.old.plain }
        ensures work { CallsAtMost 1 self.old.work self.new.work }
    {
        match self.ask(&Ask::Fetch { map, index }) {
            Ok(reply) => Ok(fetch_told(reply)),
            Err(_) => Err(NoMemory),
        }
    }
}
