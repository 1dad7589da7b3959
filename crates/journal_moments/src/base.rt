//! Giving up the first records, and what the others took out of them.

ghost use Rattle.std.specs.Prelude.{◌≡◌, ◌<◌, ◌^◌, map as each};
ghost use Rattle.journal_moments.specs.Lowered.{lowered, AllLowered};

use crate::gone::Gone;
use crate::moment::Moment;
use std::collections::VecDeque;

// Counts the records of each moment past the first `count`.
fn lower(moments: &mut [Moment], count: usize)
    ensures { AllLowered count moments.old moments.new }
{
    for moment in moments.iter_mut() {
        moment.lower(count);
    }
}

/// Counts so many more records as given up. The moments stay as they are, until the count would reach 2^63: then each is
/// lowered, and counting starts anew.
pub fn give_up(gone: &mut Gone, moments: &mut VecDeque<Moment>, more: usize)
    requires { more < 2 ^ 63 }
    ensures { AllLowered more (each (lowered gone.old) moments.old.items) (each (lowered gone.new) moments.new.items) }
{
    if gone.add(more) {
        return;
    }
    lower(moments.make_contiguous(), gone.count());
    gone.restart(more);
}
