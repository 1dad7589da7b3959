//! What a change writes and what it looks at, and whether a later change touches what an earlier one writes.

ghost use Rattle.std.specs.Prelude.{◌≡◌, not, true};
ghost use Rattle.std.specs.List.{list_any};
ghost use Rattle.host_apart.specs.Spots.{Under, Room, Whole, Frozen, meets, any_meet};
ghost use Rattle.bt_mapkind.specs.Kept.{is_keyed};
ghost use Rattle.journal_record.specs.Footprint.{IsFootprint, written_by, touched_by, key_in, is_of_bytes};
ghost use Rattle.journal_record.specs.Note.{change_of};

use crate::note::ChangeForm;
use bt_mapkind::{Back, KeptBack};
use host_state::Origin;
use host_undoing::Part;

/// A change, as far as it tells what it writes and looks at.
#[derive(Clone, Copy)]
pub enum Footprint<'a> {
    /// An operation on a map: who asks for it, whether it is a delete, and the exchange that turns it.
    Operation {
        origin: Origin,
        map: u32,
        deletes: bool,
        kept: &'a KeptBack,
    },
    Freeze {
        map: u32,
    },
    /// A link in a map.
    Link {
        map: u32,
    },
    /// A change of pins, attachments, maps or programs.
    Other,
}

impl<'a> Footprint<'a> {
    /// That of a change which is turned by an exchange of this part.
    pub fn of(form: &ChangeForm, part: &'a Part) -> Footprint<'a>
        ensures { IsFootprint result (change_of form.now) part.now }
    {
        match form {
            ChangeForm::Operate { origin, map, op } => match part {
                Part::Contents { map: _, kept } => Footprint::Operation {
                    origin: *origin,
                    map: *map,
                    deletes: op.is_delete(),
                    kept,
                },
                // What is not taken back by an exchange of contents counts as a link.
                _ => Footprint::Link { map: *map },
            },
            ChangeForm::Link { map, .. } => Footprint::Link { map: *map },
            ChangeForm::Freeze { map } => Footprint::Freeze { map: *map },
            ChangeForm::Create { .. }
            | ChangeForm::Load { .. }
            | ChangeForm::Pin { .. }
            | ChangeForm::Unpin { .. }
            | ChangeForm::Attach { .. }
            | ChangeForm::Detach { .. } => Footprint::Other,
        }
    }

    /// Whether a later change touches nothing that this one writes: a key, the number of keys if it is a delete, all that a
    /// queue holds, a freeze, or links, at which each change looks.
    pub fn is_apart_from(&self, later: &Footprint<'a>) -> bool
        ensures { result ≡ not (any_meet (written_by self.now) (touched_by later.now)) }
    {
        match self {
            Footprint::Operation {
                origin: _,
                map,
                deletes,
                kept,
            } => {
                if kept.is_keyed() {
                    !(later.touches_key(*map, kept) || *deletes && later.touches_room(*map))
                } else {
                    is_of_bytes(kept) && !later.touches_whole(*map)
                }
            }
            Footprint::Freeze { map } => !later.touches_frozen(*map),
            Footprint::Link { .. } | Footprint::Other => false,
        }
    }

    // Whether it touches what stands under the key that an exchange of this map has.
    fn touches_key(&self, map: u32, kept: &KeptBack) -> bool
        requires { is_keyed kept.now.back ≡ true }
        ensures { result ≡ list_any (meets (Under map (key_in kept.now.back))) (touched_by self.now) }
    {
        match self {
            Footprint::Operation {
                map: at,
                kept: other,
                ..
            } if *at == map => {
                if other.is_keyed() {
                    kept.is_at_key_of(other)
                } else {
                    is_of_bytes(other)
                }
            }
            _ => false,
        }
    }

    // Whether it makes room for a key of this map, or needs some.
    fn touches_room(&self, map: u32) -> bool
        ensures { result ≡ list_any (meets (Room map)) (touched_by self.now) }
    {
        match self {
            Footprint::Operation {
                origin: _,
                map: at,
                deletes,
                kept,
            } if *at == map => {
                if kept.is_keyed() {
                    *deletes || kept.is_new()
                } else {
                    is_of_bytes(kept)
                }
            }
            _ => false,
        }
    }

    // Whether it touches any bytes that this map holds.
    fn touches_whole(&self, map: u32) -> bool
        ensures { result ≡ list_any (meets (Whole map)) (touched_by self.now) }
    {
        match self {
            Footprint::Operation { map: at, kept, .. } => *at == map && is_of_bytes(kept),
            _ => false,
        }
    }

    // Whether it freezes this map, or is refused if it is frozen.
    fn touches_frozen(&self, map: u32) -> bool
        ensures { result ≡ list_any (meets (Frozen map)) (touched_by self.now) }
    {
        match self {
            Footprint::Operation {
                origin,
                map: at,
                kept,
                ..
            } => *at == map && (matches!(origin, Origin::Console) || !is_of_bytes(kept)),
            Footprint::Freeze { map: at } | Footprint::Link { map: at } => *at == map,
            Footprint::Other => false,
        }
    }
}

// Whether it is of a key of a map of bytes or of the ends of a queue, and not of a link. What is of no key is copied to be
// told; on a map where exchanges are of keys there is none.
fn is_of_bytes(kept: &KeptBack) -> bool
    ensures { result ≡ is_of_bytes kept.now.back }
{
    kept.is_keyed() || matches!(kept.back(), Back::Ends { .. })
}
