//! Kept events done again on a book.

ghost use Rattle.std.specs.Prelude.{◌≡◌, is_ok};
ghost use Rattle.kept_book.specs.Leading.{new_object, tells, is_recorded_as, is_taken_out_as};
ghost use Rattle.kept_book.specs.Redone.{IsRedone, AreRedone, IsBoxFor, judged, recording_misfit, marking_misfit, taking_misfit};

use crate::boxes::MakeBox;
use crate::misfit::{Misfit, Stop, fitting, marking_misfit, recording_misfit, taking_misfit};
use bt_journal::{Book, MarkFault, WithoutFault};
use bt_mapkind::MapKind;
use bt_roots::Target;
use bt_without::{serial_of, without};
use host_state::{Change, Refusal, Reply};
use kept_event::KeptEvent;

/// Does a kept event again, by the call of the book that did it: a change is recorded, with a box of the maker's if it makes
/// a map, a mark made, moments undone or redone, a change taken out, or the past given up.
///
/// # Errors
/// DoesNotFit if the book refuses the event, or records or takes out under another serial, or makes a map or program of
/// another id than was kept, or if a new map was kept with another charge than its attributes come to; the book is then
/// of no use. NoMemory if memory ran out; the book is as it was.
pub fn redo_event<K: MapKind, B: MakeBox<K>>(
    book: &mut Book<K>,
    event: KeptEvent,
    boxes: &mut B,
) -> Result<(), Misfit>
    ensures { IsRedone book.old.plain event result book.new.plain }
{
    match event {
        KeptEvent::Changed { serial, change } => redo_change(book, serial, change, boxes),
        KeptEvent::Marked(name) => judged_mark(book.mark(name)),
        KeptEvent::UndoneTo(name) => fitting(book.undo_to(&name).is_ok()),
        KeptEvent::UndoneLast => fitting(book.undo_last().is_ok()),
        KeptEvent::Redone => fitting(book.redo().is_ok()),
        KeptEvent::TakenOut { serial, own } => {
            judged_taking(serial_of(without(book, serial)), own)
        }
        KeptEvent::Forgot(name) => fitting(book.forget(&name).is_ok()),
    }
}

/// Does kept events again, one after the other, as [`redo_event`] does each.
///
/// # Errors
/// The position of the first event that is not done again, and why: DoesNotFit or NoMemory.
pub fn redo_events<K: MapKind, B: MakeBox<K>>(
    book: &mut Book<K>,
    events: Vec<KeptEvent>,
    boxes: &mut B,
) -> Result<(), Stop>
    ensures { AreRedone book.old.plain events.items result book.new.plain }
{
    let count = events.len();
    let mut rest = events.into_iter();
    'events: while let Some(event) = rest.next() {
        match redo_event(book, event, boxes) {
            Ok(()) => {}
            Err(why) => {
                let place = (count - rest.len()) as u64;
                return Err(Stop { place, why });
            }
        }
    }
    Ok(())
}

// Records a kept change again.
fn redo_change<K: MapKind, B: MakeBox<K>>(
    book: &mut Book<K>,
    serial: u64,
    change: Change,
    boxes: &mut B,
) -> Result<(), Misfit>
    ensures { IsRedone book.old.plain (KeptEvent.Changed serial change) result book.new.plain }
{
    let object = new_object(&change);
    match box_for(&change, boxes) {
        Ok(blank) => judged_record(book.record(change, blank), serial, object),
        Err(misfit) => Err(misfit),
    }
}

// The box that a change comes with again, if it makes a map.
fn box_for<K: MapKind, B: MakeBox<K>>(change: &Change, boxes: &mut B) -> Result<Option<K>, Misfit>
    ensures { IsBoxFor K.seen change.now result }
{
    match change {
        Change::Create { attr, charge, .. } => {
            if !attr.good() {
                return Err(Misfit::DoesNotFit);
            }
            match boxes.make_box(*attr) {
                Ok(kind) => {
                    if kind.charge() == *charge {
                        Ok(Some(kind))
                    } else {
                        Err(Misfit::DoesNotFit)
                    }
                }
                Err(_) => Err(Misfit::NoMemory),
            }
        }
        Change::Operate { .. }
        | Change::Freeze { .. }
        | Change::Link { .. }
        | Change::Load { .. }
        | Change::Pin { .. }
        | Change::Unpin { .. }
        | Change::Attach { .. }
        | Change::Detach { .. } => Ok(None),
    }
}

// The map or the program that a change makes.
fn new_object(change: &Change) -> Option<Target>
    ensures { result ≡ new_object change.now }
{
    match change {
        Change::Create { id, .. } => Some(Target::Map(*id)),
        Change::Load { id, .. } => Some(Target::Prog(*id)),
        Change::Operate { .. }
        | Change::Freeze { .. }
        | Change::Link { .. }
        | Change::Pin { .. }
        | Change::Unpin { .. }
        | Change::Attach { .. }
        | Change::Detach { .. } => None,
    }
}

// Whether a reply tells the id of what was made, if something was.
fn tells(reply: &Reply, object: Option<Target>) -> bool
    ensures { result ≡ tells reply.now object }
{
    match object {
        None => true,
        Some(Target::Map(id)) => match reply {
            Reply::Id(got) => *got == id,
            Reply::Done | Reply::Loaded(_) | Reply::Value(_) | Reply::Old(_) => false,
        },
        Some(Target::Prog(id)) => match reply {
            Reply::Loaded(got) => *got == id,
            Reply::Done | Reply::Id(_) | Reply::Value(_) | Reply::Old(_) => false,
        },
    }
}

// Whether a change was recorded under this serial, and told the object that it makes, or why not.
fn judged_record(
    done: Result<(u64, Reply), Refusal>,
    serial: u64,
    object: Option<Target>,
) -> Result<(), Misfit>
    ensures { result ≡ judged (is_recorded_as serial object) recording_misfit done }
{
    match done {
        Ok((got, reply)) => fitting(got == serial && tells(&reply, object)),
        Err(refusal) => Err(recording_misfit(refusal)),
    }
}

// Whether a mark was made, or why not.
fn judged_mark(made: Result<(), MarkFault>) -> Result<(), Misfit>
    ensures { result ≡ judged is_ok marking_misfit made }
{
    match made {
        Ok(()) => Ok(()),
        Err(fault) => Err(marking_misfit(fault)),
    }
}

// Whether a change was taken out under this serial, or why not.
fn judged_taking(taken: Result<u64, WithoutFault>, own: u64) -> Result<(), Misfit>
    ensures { result ≡ judged (is_taken_out_as own) taking_misfit taken }
{
    match taken {
        Ok(got) => fitting(got == own),
        Err(fault) => Err(taking_misfit(fault)),
    }
}
