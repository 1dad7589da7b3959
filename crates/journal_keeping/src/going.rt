//! Several moments undone one after the other, and brought back.

ghost use Rattle.std.specs.Prelude.{◌≡◌, ◌-◌, ◌≤◌, length};
ghost use Rattle.journal_keeping.specs.Boxes.{states_of};
ghost use Rattle.journal_model.specs.Plain.{cut};
ghost use Rattle.journal_model.specs.Rebase.{forth_by};
ghost use Rattle.journal_keeping.specs.Calls.{calls_back};
ghost use Rattle.host_state.specs.Work.{CallsAtMost};

use bt_mapkind::MapKind;
use journal_timeline::Timeline;

/// Undoes the moments past this number. It takes no memory.
pub fn go_back<K: MapKind>(line: &mut Timeline<K>, count: u64)
    ensures pasts { line.new.pasts ≡ cut count line.old.pasts }
    ensures boxes { line.new.makes ≡ line.old.makes }
    ensures states { states_of line.new.pasts ≡ states_of line.old.pasts }
    ensures work { CallsAtMost (calls_back (length line.old.pasts.moments - count) line.old.pasts.moments) line.old.work line.new.work }
{
    while line.moment_count() > count {
        line.back();
    }
}

/// Brings the first so many undone moments back. It takes no memory.
pub fn go_forth<K: MapKind>(line: &mut Timeline<K>, count: u64)
    requires { count ≤ length line.old.pasts.undone }
    ensures pasts { line.new.pasts ≡ forth_by count line.old.pasts }
    ensures boxes { line.new.makes ≡ line.old.makes }
{
    let mut left = count;
    'forth: while left > 0 {
        line.forth();
        left -= 1;
    }
}
