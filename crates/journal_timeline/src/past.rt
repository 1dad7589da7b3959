//! What is asked of the past before it is given up.

ghost use Rattle.std.specs.Prelude.{◌≡◌, ◌↔◌, ◌≤◌, true, not, filter, length};
ghost use Rattle.bt_roots.specs.declared.target.Target.TheVariants.{Map, Prog};
ghost use Rattle.journal_model.specs.Rebase.{still_taken_out};
ghost use Rattle.journal_model.specs.Plain.{now, newest_force, cut};
ghost use Rattle.journal_model.specs.Window.{first_in_force};
ghost use Rattle.journal_moments.specs.Listed.{Rises};
ghost use Rattle.journal_moments.specs.Rebased.{AllBegin};
ghost use Rattle.journal_moments.specs.Retired.{has_retired, NoneRetired, StayIn};
ghost use Rattle.journal_moments.specs.Taken.{TakenByAgeSince};

use crate::timeline::Timeline;
use bt_mapkind::MapKind;
use journal_moments::{first_taking_out, retires_none, take_out_retired};

impl<K: MapKind> Timeline<K> {
    /// The serial of the first moment past the first `count`, in force or undone, that took out a change from before, if one
    /// did. It takes no memory.
    pub fn first_taking_out(&self, count: usize) -> Option<u64>
        requires within { count ≤ length self.now.pasts.moments }
        requires by_age { let before = cut count self.now.pasts in TakenByAgeSince before.moments before.undone }
        ensures { result ≡ still_taken_out count self.now.pasts }
    {
        if count == 0 {
            return None;
        }
        let newest = self.moments[count - 1].serial();
        first_taking_out(&self.moments, count, newest)
    }

    /// The serial of the oldest moment in force, if the first change in force is its own: no moment took it out. It takes
    /// no memory, and looks at no other moment.
    pub fn first_in_force(&self) -> Option<u64>
        ensures { result ≡ first_in_force self.now.pasts }
    {
        if self.standing == 0 || self.records.is_empty() {
            return None;
        }
        let serial = self.records[0].serial();
        if serial == self.moments[0].serial() {
            Some(serial)
        } else {
            None
        }
    }

    /// Whether nothing has retired in the state after the first `count` moments. What is in the base is there in that
    /// state. It takes no memory, and calls no box.
    pub fn retires_none(&self, count: usize) -> bool
        requires within { count ≤ length self.now.pasts.moments }
        requires begin { let before = cut count self.now.pasts in AllBegin (newest_force before.moments) before.undone }
        requires lives { NoneRetired self.now.pasts.base }
        ensures none { (result ≡ true) ↔ NoneRetired (now (cut count self.now.pasts)) }
        ensures stay { StayIn self.now.pasts.base (now (cut count self.now.pasts)) }
    {
        let below = self.in_force_after(count);
        retires_none(&self.records, below)
    }

    /// Takes the objects that have retired in the state after the first `count` moments out of ascending lists of maps and
    /// of programs. What is there in that state is there now. It takes no memory, and calls no box.
    pub fn take_out_retired(&self, count: usize, maps: &mut Vec<u32>, progs: &mut Vec<u32>)
        requires within { count ≤ length self.now.pasts.moments }
        requires begin { let before = cut count self.now.pasts in AllBegin (newest_force before.moments) before.undone }
        requires lives { NoneRetired self.now.pasts.base }
        requires maps { Rises maps.old.items }
        requires progs { Rises progs.old.items }
        ensures maps { maps.new.items ≡ filter (λ id. not (has_retired (now (cut count self.now.pasts)) (Map id))) maps.old.items }
        ensures progs { progs.new.items ≡ filter (λ id. not (has_retired (now (cut count self.now.pasts)) (Prog id))) progs.old.items }
        ensures stay { StayIn (now (cut count self.now.pasts)) (now self.now.pasts) }
    {
        let below = self.in_force_after(count);
        take_out_retired(&self.records, below, maps, progs);
    }
}
