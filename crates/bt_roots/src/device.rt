//! A network device with the program that is attached to it.
ghost use Rattle.std.specs.Prelude.{◌≡◌, ◌<◌, ◌↔◌, Contains, IfOk, IfSome, length, vec_len};
ghost use Rattle.std.specs.List.{list_all};
ghost use Rattle.bt_roots.specs.Reachable.{IsAttached};
ghost use Rattle.host_words.specs.Spelling.{is_name};
ghost use Rattle.bt_roots.specs.View.{are_distinct, devices_are_good, position_of};
ghost use Rattle.bt_roots.specs.Exchange.{prog_at, attach_at};

use crate::Target;
use host_words::{NoMemory, Word, is_name};
use std::alloc::Global;
use std::mem;

/// A device: its name, and the id of the XDP program that is attached to it, if any (bpftool-net(8)).
#[derive(Debug, Drop)]
pub struct Device {
    /// 1 to 15 of `A-Z a-z 0-9 _ . -`.
    pub name: Word,
    /// The id of the attached program.
    pub prog: Option<u32>,
}

fn are_distinct(names: &[Word]) -> bool
    ensures { result ≡ are_distinct names.now }
{
    for (place, name) in names.iter().enumerate() {
        if names[place + 1..].contains(name) {
            return false;
        }
    }
    true
}

fn are_names(words: &[Word]) -> bool
    ensures { result ≡ list_all is_name words.now }
{
    words.iter().all(|word| is_name(word.as_slice()))
}

/// Whether a host can have devices of these names: 1 to 16 good names, no two of them equal.
#[tactic(auto, unfolding(crate::specs::View::devices_are_good))]
pub fn devices_are_good(names: &[Word]) -> bool
    ensures { result ≡ devices_are_good names.now }
{
    matches!(names.len(), 1..=16) && are_names(names) && are_distinct(names)
}

/// The position of the device of the name, from 0.
pub(crate) fn position_of(devices: &[Device], name: &[u8]) -> Option<usize>
    ensures position { result ≡ position_of devices.now name.now }
    ensures within { IfSome result (λ position. position < length devices.now) }
{
    devices
        .iter()
        .position(|device| device.name.as_slice() == name)
}

/// The program that is attached to the device at the position.
pub(crate) fn prog_at(devices: &[Device], position: usize) -> Option<u32>
    requires { position < length devices.now }
    ensures { result ≡ prog_at devices.now position }
{
    let device = &devices[position];
    device.prog
}

/// Attaches this program, or none, to the device at the position, and answers what was attached.
pub(crate) fn exchange_prog(
    devices: &mut Vec<Device>,
    position: usize,
    prog: Option<u32>,
) -> Option<u32>
    requires { position < vec_len devices.old }
    ensures before { result ≡ prog_at devices.old.items position }
    ensures after { devices.new.items ≡ attach_at devices.old.items position prog }
    ensures len { length devices.new.items ≡ length devices.old.items }
{
    let device = &mut devices[position];
    mem::replace(&mut device.prog, prog)
}

/// The programs that are attached, one for each device that has one.
pub(crate) fn attached_objects(alloc: Global, devices: &[Device]) -> Result<Vec<Target>, NoMemory>
    ensures { IfOk result (λ objects. (target : Target) →
        Contains objects.items target ↔ IsAttached devices.now target) }
{
    devices
        .iter()
        .filter_map(|device| device.prog.map(Target::Prog))
        .collect(alloc)
}
