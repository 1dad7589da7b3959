//! Objects that records in place retired, taken out of lists of ids.

ghost use Rattle.std.specs.Prelude.{◌≡◌, ◌==◌, ◌≤◌, not, filter, take};
ghost use Rattle.std.specs.VecDeque.{deque_len};
ghost use Rattle.bt_roots.specs.declared.target.Target.TheVariants.{Map, Prog};
ghost use Rattle.bt_roots.specs.Live.{is_same};
ghost use Rattle.host_state.specs.Settled.{is_listed};
ghost use Rattle.journal_record.specs.Retired.{is_retired_by, retire_none};
ghost use Rattle.journal_record.specs.Listed.{Rises};

use crate::record::Record;
use bt_roots::Target;
use std::collections::VecDeque;

/// Takes the objects that the first `count` records retired out of ascending lists of maps and of programs. Each of them
/// takes a binary search and a shift of the ids after it.
pub fn take_out_retired(
    records: &VecDeque<Record>,
    count: usize,
    maps: &mut Vec<u32>,
    progs: &mut Vec<u32>,
)
    requires within { count ≤ deque_len records.now }
    requires maps { Rises maps.old.items }
    requires progs { Rises progs.old.items }
    ensures maps { maps.new.items ≡ filter (λ id. not (is_retired_by (take count records.now.items) (Map id))) maps.old.items }
    ensures progs { progs.new.items ≡ filter (λ id. not (is_retired_by (take count records.now.items) (Prog id))) progs.old.items }
{
    for index in 0..count {
        take_out_each(records[index].retired(), maps, progs);
    }
}

/// Whether none of the first `count` records is of a change that retired something.
pub fn retires_none(records: &VecDeque<Record>, count: usize) -> bool
    requires { count ≤ deque_len records.now }
    ensures { result ≡ retire_none (take count records.now.items) }
{
    for index in 0..count {
        if !records[index].retired().is_empty() {
            return false;
        }
    }
    true
}

// Takes these objects out of the lists.
fn take_out_each(targets: &[Target], maps: &mut Vec<u32>, progs: &mut Vec<u32>)
    requires maps { Rises maps.old.items }
    requires progs { Rises progs.old.items }
    ensures maps { maps.new.items ≡ filter (λ id. not (is_listed targets.now (Map id))) maps.old.items }
    ensures progs { progs.new.items ≡ filter (λ id. not (is_listed targets.now (Prog id))) progs.old.items }
{
    for target in targets {
        take_out_one(target, maps, progs);
    }
}

// Takes an object out of its list.
fn take_out_one(target: &Target, maps: &mut Vec<u32>, progs: &mut Vec<u32>)
    requires maps { Rises maps.old.items }
    requires progs { Rises progs.old.items }
    ensures maps { maps.new.items ≡ filter (λ id. not (is_same (Map id) target.now)) maps.old.items }
    ensures progs { progs.new.items ≡ filter (λ id. not (is_same (Prog id) target.now)) progs.old.items }
{
    match target {
        Target::Map(id) => take_out(maps, *id),
        Target::Prog(id) => take_out(progs, *id),
    }
}

// Takes an id out of ascending ones.
fn take_out(ids: &mut Vec<u32>, id: u32)
    requires { Rises ids.old.items }
    ensures { ids.new.items ≡ filter (λ other. not (other == id)) ids.old.items }
{
    while let Ok(place) = ids.binary_search(&id) {
        ids.remove(place);
    }
}
