//! The ids of the maps and programs that a book keeps.

ghost use Rattle.std.specs.Prelude.{◌≡◌, ◌<◌, ◌≤◌, ◌++◌, [], ◌∷◌, filter, nat_le, take, drop, vec_len, vec_capacity, OnOk, option_to_list};
ghost use Rattle.std.specs.VecDeque.{deque_len, deque_capacity};
ghost use Rattle.journal_model.specs.Told.{id_told, prog_told};
ghost use Rattle.journal_keeping.specs.Boxes.{none_given, lasts_of, newest};

use host_state::Reply;
use host_words::NoMemory;
use journal_timeline::drop_front;
use std::alloc::Global;
use std::collections::VecDeque;

/// The last map id and the last program id that had been given.
#[derive(Clone, Copy)]
pub struct LastIds {
    pub map_id: u32,
    pub prog_id: u32,
}

/// Every map and program id that undo or redo can still reach, ascending; and the last ids that
/// had been given when each moment was made, the undone ones last, and by the base.
#[derive(Drop)]
pub struct Ids {
    pub maps: Vec<u32>,
    pub progs: Vec<u32>,
    pub lasts: VecDeque<LastIds>,
    pub base: LastIds,
}

impl Ids {
    /// No ids, and no moments.
    pub fn new(alloc: Global) -> Ids
        ensures maps { result.maps.items ≡ [] }
        ensures progs { result.progs.items ≡ [] }
        ensures lasts { result.lasts.items ≡ [] }
        ensures base { result.base ≡ none_given }
    {
        Ids {
            maps: Vec::new(alloc),
            progs: Vec::new(alloc),
            lasts: VecDeque::new(alloc),
            base: LastIds {
                map_id: 0,
                prog_id: 0,
            },
        }
    }

    /// Makes room for one more moment, and for an object that it makes.
    pub fn reserve(&mut self) -> Result<(), NoMemory>
        ensures maps { self.new.maps.items ≡ self.old.maps.items }
        ensures progs { self.new.progs.items ≡ self.old.progs.items }
        ensures lasts { self.new.lasts.items ≡ self.old.lasts.items }
        ensures base { self.new.base ≡ self.old.base }
        ensures maps_room { OnOk result (vec_len self.new.maps < vec_capacity self.new.maps) }
        ensures progs_room { OnOk result (vec_len self.new.progs < vec_capacity self.new.progs) }
        ensures lasts_room { OnOk result (deque_len self.new.lasts < deque_capacity self.new.lasts) }
    {
        self.maps.reserve(1)?;
        self.progs.reserve(1)?;
        self.lasts.reserve(1)?;
        Ok(())
    }

    /// Gives up what was given after this number of moments.
    pub fn give_up(&mut self, standing: usize)
        ensures maps { self.new.maps.items ≡ filter (λ id. nat_le id (newest (lasts_of self.old.base (take standing self.old.lasts.items))).map_id) self.old.maps.items }
        ensures progs { self.new.progs.items ≡ filter (λ id. nat_le id (newest (lasts_of self.old.base (take standing self.old.lasts.items))).prog_id) self.old.progs.items }
        ensures lasts { self.new.lasts.items ≡ take standing self.old.lasts.items }
        ensures base { self.new.base ≡ self.old.base }
        ensures maps_len { vec_len self.new.maps ≤ vec_len self.old.maps }
        ensures progs_len { vec_len self.new.progs ≤ vec_len self.old.progs }
        ensures lasts_len { deque_len self.new.lasts ≤ deque_len self.old.lasts }
        ensures maps_room { vec_capacity self.new.maps ≡ vec_capacity self.old.maps }
        ensures progs_room { vec_capacity self.new.progs ≡ vec_capacity self.old.progs }
        ensures lasts_room { deque_capacity self.new.lasts ≡ deque_capacity self.old.lasts }
    {
        self.lasts.truncate(standing);
        let last = newest(self.base, &self.lasts);
        drop_above(&mut self.maps, last.map_id);
        drop_above(&mut self.progs, last.prog_id);
    }

    /// Adds the last ids that were given when a moment is made, and the id of what it makes, if the reply tells of one.
    pub fn add(&mut self, last: LastIds, reply: &Reply)
        requires maps_room { vec_len self.old.maps < vec_capacity self.old.maps }
        requires progs_room { vec_len self.old.progs < vec_capacity self.old.progs }
        requires lasts_room { deque_len self.old.lasts < deque_capacity self.old.lasts }
        ensures maps { self.new.maps.items ≡ self.old.maps.items ++ option_to_list (id_told reply.now) }
        ensures progs { self.new.progs.items ≡ self.old.progs.items ++ option_to_list (prog_told reply.now) }
        ensures lasts { self.new.lasts.items ≡ self.old.lasts.items ++ last ∷ [] }
        ensures base { self.new.base ≡ self.old.base }
    {
        match reply {
            Reply::Id(id) => self.maps.push_reserved(*id),
            Reply::Loaded(id) => self.progs.push_reserved(*id),
            Reply::Done | Reply::Value(_) | Reply::Old(_) => {}
        }
        self.lasts.push_back_reserved(last);
    }

    /// Gives up the first so many moments: the last ids that had been given after them are those of the base.
    pub fn advance(&mut self, count: usize)
        requires { count ≤ deque_len self.old.lasts }
        ensures base { self.new.base ≡ newest (lasts_of self.old.base (take count self.old.lasts.items)) }
        ensures lasts { self.new.lasts.items ≡ drop count self.old.lasts.items }
        ensures maps { self.new.maps.items ≡ self.old.maps.items }
        ensures progs { self.new.progs.items ≡ self.old.progs.items }
    {
        if count > 0 {
            self.base = self.lasts[count - 1];
        }
        drop_front(&mut self.lasts, count);
    }
}

// The last that had been given when the newest moment was made; those of the base if there is none.
fn newest(base: LastIds, lasts: &VecDeque<LastIds>) -> LastIds
    ensures { result ≡ newest (lasts_of base lasts.now.items) }
{
    match lasts.back() {
        Some(last) => *last,
        None => base,
    }
}

// Drops the ids above this one.
fn drop_above(ids: &mut Vec<u32>, last: u32)
    ensures items { ids.new.items ≡ filter (λ id. nat_le id last) ids.old.items }
    ensures len { vec_len ids.new ≤ vec_len ids.old }
    ensures room { vec_capacity ids.new ≡ vec_capacity ids.old }
{
    ids.retain(|id| *id <= last);
}
