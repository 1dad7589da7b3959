//! The pins, one after another.
ghost use Rattle.std.specs.Prelude.{◌≡◌};
ghost use Rattle.std.specs.Iterator.{YieldsFirstBy, item_count};
ghost use Rattle.bt_roots.specs.PinsLeft.{pinned_in, pins_left};

use crate::Target;
use host_words::Word;
use std::collections::btree_map::Iter;

/// Gives each path at which an object is pinned, with the object, by ascending bytes of the paths.
#[derive(Drop)]
pub struct Pins<'a> {
    slots: Iter<'a, Word, Option<Target>>,
}

impl<'a> Pins<'a> {
    pub(crate) fn new(slots: Iter<'a, Word, Option<Target>>) -> Self
        ensures { pins_left result ≡ pinned_in slots.entry }
    {
        Pins { slots }
    }
}

impl<'a> Iterator for Pins<'a> {
    type Item = (&'a Word, Target);

    ghost next_gives = { YieldsFirstBy (λ pin. (pin.0.now, pin.1)) pins_left };

    ghost remaining = { item_count pins_left };

    fn next(&mut self) -> Option<(&'a Word, Target)> {
        'passing: while let Some((path, slot)) = self.slots.next() {
            if let Some(target) = slot {
                return Some((path, *target));
            }
        }
        None
    }
}
