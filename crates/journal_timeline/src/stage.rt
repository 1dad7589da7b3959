//! Taking one record out of a timeline: by one exchange, or the later ones are turned back, it drops out, and they are done
//! again.

ghost use Rattle.std.specs.Prelude.{◌≡◌, ◌<◌, true, false, [], length, MatchResult};
ghost use Rattle.host_undoing.specs.Answers.{HasBlank};
ghost use Rattle.host_state.specs.Work.{CallsAtMost};
ghost use Rattle.journal_model.specs.Replay.{Entry};
ghost use Rattle.journal_model.specs.Well.{Each, EachPair};
ghost use Rattle.journal_model.specs.Without.{with_taking_out};
ghost use Rattle.journal_moments.specs.Alone.{is_alone};
ghost use Rattle.journal_timeline.specs.Staged.{staged, TakesOutAlone, TurnsBack, GoesOn, HasBoxesLeft};
ghost use Rattle.journal_timeline.specs.StageCalls.{CallsToTurn, CallsToGoOn};

use crate::doing::reapply;
use crate::timeline::Timeline;
use bt_mapkind::MapKind;
use journal_moments::{
    Gone, Moment, Record, Taking, World, exchange_taking, is_alone, lay_down, make_room, place_of,
};
use std::collections::VecDeque;
use std::marker::Model;
use std::mem;

/// Why a change is not done again.
#[derive(Clone, Copy, PartialEq, Eq, Debug)]
pub enum AgainFault {
    /// The change of this serial answers otherwise than it did.
    Differs(u64),
    NoMemory,
}

/// A timeline from which one change is being taken out. It cannot be dropped: [`LineStage::keep`] or
/// [`LineStage::restore`] ends it. Contracts see the timeline as it was, the changes in place, those turned back that are
/// still to be done again, and how many calls of boxes it takes to put all back.
pub struct LineStage<K: MapKind> {
    world: World<K>,
    records: VecDeque<Record>,
    // The records that were turned back, as a taking out that would bring them back. Its position counts those in place.
    pending: Box<Taking>,
    // A taking out with room for one record, in place of the other one if no other record has to move.
    short: Box<Taking>,
    serial: u64,
    out: bool,
    // How many of those turned back are out or done again.
    passed: usize,
    moments: VecDeque<Moment>,
    standing: usize,
    gone: Gone,
}

impl<K: MapKind> Model for LineStage<K> {
    ghost use Rattle.journal_timeline.specs.Staged.{Staged, staged_code};

    ghost Value = { Staged };

    ghost coded = { staged_code };

    ghost use Rattle.std.specs.VecDeque.{deque_capacity};
    ghost use Rattle.journal_timeline.specs.StageHeld.{stage_held, staged_of, SoundStage};

    ghost view = { λ s. staged_of (stage_held s.world s.records.items (deque_capacity s.records) s.pending.value s.short.value s.serial s.out s.passed s.moments.items (deque_capacity s.moments) s.standing s.gone) };

    ghost invariant = { λ s. SoundStage (stage_held s.world s.records.items (deque_capacity s.records) s.pending.value s.short.value s.serial s.out s.passed s.moments.items (deque_capacity s.moments) s.standing s.gone) };
}

impl<K: MapKind> LineStage<K> {
    /// Begins to take the change of a serial out. Makes room for the moment of the taking out; if that is refused, the
    /// timeline comes back as it was.
    pub fn new(line: Timeline<K>, serial: u64) -> Result<LineStage<K>, Timeline<K>>
        ensures { MatchResult result (λ stage. stage ≡ staged line serial) (λ back. back ≡ line) }
    {
        let mut line = line;
        let alloc = *line.records.allocator();
        let pending = match Taking::with_room(alloc, serial, line.records.len()) {
            Ok(pending) => pending,
            Err(_) => return Err(line),
        };
        let short = match Taking::of_one(alloc, serial) {
            Ok(short) => short,
            Err(_) => return Err(line),
        };
        match make_room(&mut line.records, &mut line.moments) {
            Ok(()) => {}
            Err(_) => return Err(line),
        }
        Ok(LineStage {
            world: line.world,
            records: line.records,
            pending,
            short,
            serial,
            out: false,
            passed: 0,
            moments: line.moments,
            standing: line.standing,
            gone: line.gone,
        })
    }

    /// How many changes that were turned back are still to be done again.
    pub fn left(&self) -> u64
        ensures { result ≡ length self.now.left }
    {
        (self.pending.other.len() - self.passed) as u64
    }

    /// How many units of work were done on boxes; at the greatest u64 the count stays.
    pub fn work(&self) -> u64
        ensures { result ≡ self.now.line.work }
    {
        self.world.work()
    }

    /// Whether the change is of one key of a map of bytes, and each later one in place is apart from it. It takes no memory.
    pub fn alone(&self) -> bool
        requires not_out { self.now.out ≡ false }
        requires none_left { self.now.left ≡ [] }
        ensures { result ≡ is_alone self.now.serial self.now.line.pasts.base self.now.in_place }
    {
        is_alone(&self.records, self.serial)
    }

    /// Takes the change out by one exchange; nothing else moves. It takes no memory.
    pub fn exchange(&mut self)
        requires not_out { self.old.out ≡ false }
        requires none_left { self.old.left ≡ [] }
        requires alone { is_alone self.old.serial self.old.line.pasts.base self.old.in_place ≡ true }
        requires in_order { EachPair (λ (earlier later : Entry). earlier.serial < later.serial) self.old.in_place }
        ensures takes_out { TakesOutAlone self.old self.new }
        ensures work { CallsAtMost 1 self.old.line.work self.new.line.work }
    {
        self.world.maps_are_well();
        let at = match place_of(&self.records, self.serial) {
            Some(at) => at,
            None => unreachable!(),
        };
        self.short.at = at;
        self.short.stays = self.records.len() - at - 1;
        exchange_taking(&mut self.world, &mut self.records, &mut self.short);
        mem::swap(&mut self.pending, &mut self.short);
        self.out = true;
        self.passed = 1;
    }

    /// Takes the last change in place back, and tells whether it is the one to take out, which drops out. It takes no
    /// memory.
    pub fn back(&mut self) -> bool
        requires any { 0 < length self.old.in_place }
        requires not_out { self.old.out ≡ false }
        ensures turns { TurnsBack self.old result self.new }
        ensures work { CallsToTurn self.old self.new }
    {
        let at = self.records.len() - 1;
        let serial = self.records[at].serial();
        lay_down(
            &mut self.world,
            &mut self.records,
            at,
            &mut self.pending.other,
        );
        self.pending.at = at;
        if serial == self.serial {
            self.out = true;
            self.passed = 1;
            true
        } else {
            false
        }
    }

    /// Does the next of the changes that were turned back again. Refused, it moves nothing: Differs if the change
    /// answers otherwise than it did. Takes memory.
    pub fn again(&mut self) -> Result<(), AgainFault>
        requires any { 0 < length self.old.left }
        requires out { self.old.out ≡ true }
        requires boxes { HasBoxesLeft self.old }
        ensures goes_on { GoesOn self.old result self.new }
        ensures work { CallsToGoOn self.old result self.new }
    {
        let next = self.pending.other.len() - 1 - self.passed;
        match reapply(
            &mut self.world,
            &self.pending.other[next],
            &mut self.records,
        ) {
            Ok(()) => {
                self.passed += 1;
                Ok(())
            }
            Err(fault) => Err(fault),
        }
    }

    /// The timeline with the taking out as its newest moment, under this serial. It takes no memory.
    pub fn keep(self, serial: u64) -> Timeline<K>
        requires out { self.out ≡ true }
        requires none_left { self.left ≡ [] }
        ensures pasts { result.pasts ≡ with_taking_out self.line.pasts serial self.serial self.in_place self.state }
        ensures boxes { result.makes ≡ self.line.makes }
        ensures work { result.work ≡ self.line.work }
    {
        let LineStage {
            world,
            records,
            mut pending,
            mut moments,
            standing,
            gone,
            short: _,
            serial: _,
            out: _,
            passed: _,
        } = self;
        moments.truncate(standing);
        let at = gone.behind(pending.at);
        pending.at = at;
        pending.serial = serial;
        moments.push_back_reserved(Moment::of_taking(pending));
        let standing = moments.len();
        Timeline {
            world,
            records,
            moments,
            standing,
            gone,
        }
    }

    /// The timeline as it was. It takes no memory.
    pub fn restore(self) -> Timeline<K>
        ensures pasts { result.pasts ≡ self.line.pasts }
        ensures boxes { result.makes ≡ self.line.makes }
        ensures work { CallsAtMost self.to_restore self.line.work result.work }
    {
        let LineStage {
            mut world,
            mut records,
            mut pending,
            moments,
            standing,
            gone,
            short: _,
            serial: _,
            out: _,
            passed: _,
        } = self;
        exchange_taking(&mut world, &mut records, &mut pending);
        Timeline {
            world,
            records,
            moments,
            standing,
            gone,
        }
    }
}
