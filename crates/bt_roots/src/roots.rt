//! The pins and the devices, and the calls that change one of them.
ghost use Rattle.std.specs.Prelude.{◌≡◌, ◌≢◌, ◌↔◌, Contains, IfOk, IsTrue, Err, map};
ghost use Rattle.std.specs.FinMap as finite;
ghost use Rattle.bt_roots.specs.View.{devices_are_good, free_device, fresh_roots};
ghost use Rattle.bt_roots.specs.PinsLeft.{pins_left};
ghost use Rattle.bt_roots.specs.Live.{is_live};
ghost use Rattle.bt_roots.specs.Reachable.{IsAscending, IsReachable, IsRoot, IsSource};
ghost use Rattle.bt_roots.specs.Exchange.{KeepsRoom, device_named, exchange_fits, exchanged};
ghost use Rattle.bt_roots.specs.Answers.{IsAnswered, pin_answer, unpin_answer, attach_answer, detach_answer};

use crate::device::{attached_objects, exchange_prog, position_of, prog_at};
use crate::reach::{lead_to, reachable_from};
use crate::slots::{Slots, add_pin, exchange_pin, pinned_at, pinned_objects};
use crate::{Device, Pins, RootBack, RootFault, Target};
use host_words::{NoMemory, Word, is_path};
use std::alloc::Global;
use std::collections::BTreeMap;
use std::marker::Model;

/// The pins and the devices of a host: what keeps its objects alive, as in the BPF file system and
/// at network devices (bpftool-map(8), bpftool-prog(8), bpftool-net(8)).
#[derive(Drop)]
pub struct Roots {
    // A path that was pinned keeps its entry, so that a turn finds the room.
    slots: Slots,
    devices: Vec<Device>,
}

impl Model for Roots {
    ghost use Rattle.bt_roots.specs.View.{RootsView};
    ghost use Rattle.bt_roots.specs.ViewCode.{view_code};

    ghost Value = { RootsView };

    ghost coded = { view_code };

    ghost use Rattle.bt_roots.specs.Slots.{roots_view, HasGoodDevices};

    ghost view = { λ r. roots_view r.slots.entries r.devices.items };

    ghost invariant = { λ r. HasGoodDevices r.devices.items };
}

fn free_devices(alloc: Global, names: Vec<Word>) -> Result<Vec<Device>, NoMemory>
    ensures { IfOk result (λ devices. devices.items ≡ map free_device names.items) }
{
    names
        .into_iter()
        .map(|name| Device { name, prog: None })
        .collect(alloc)
}

#[tactic(auto, unfolding(crate::specs::Answers::attach_answer, crate::specs::Answers::detach_answer, crate::specs::Answers::pin_answer, crate::specs::Answers::unpin_answer, crate::specs::Exchange::exchange_fits, crate::specs::Exchange::exchanged, crate::specs::Slots::roots_view, crate::specs::View::devices_are_good))]
impl Roots {
    /// The roots of a host with these devices: no pin, no program, and no path with room.
    pub fn new(alloc: Global, devices: Vec<Word>) -> Result<Roots, NoMemory>
        requires { IsTrue (devices_are_good devices.items) }
        ensures { IfOk result (λ roots. roots ≡ fresh_roots devices.items) }
    {
        let devices = free_devices(alloc, devices)?;
        let slots = BTreeMap::new(alloc);
        Ok(Roots { slots, devices })
    }

    /// The object that is pinned at the path.
    pub fn pinned(&self, path: &Word) -> Option<Target>
        ensures { result ≡ finite.get self.now.pins path.now }
    {
        pinned_at(&self.slots, path)
    }

    /// The pins, by ascending bytes of their paths.
    pub fn pins(&self) -> Pins<'_>
        ensures { pins_left result ≡ finite.entries self.now.pins }
    {
        Pins::new(self.slots.iter())
    }

    /// The devices in order; the ifindex of one is its position plus 1.
    pub fn devices(&self) -> &[Device]
        ensures value { result.now ≡ self.now.devices }
        ensures good { IsTrue (devices_are_good (map (λ device. device.name) self.now.devices)) }
    {
        self.devices.as_slice()
    }

    /// The ifindex of the device of the name, and the program that is attached to it.
    pub fn device(&self, name: &[u8]) -> Option<(u32, Option<u32>)>
        ensures { result ≡ device_named self.now.devices name.now }
    {
        let position = position_of(&self.devices, name)?;
        let ifindex = position as u32 + 1;
        Some((ifindex, prog_at(&self.devices, position)))
    }

    /// Pins the object at the path, which from then on has room for every turn. `BadPath` if the
    /// path is no good one, else `Exists` if something is pinned there. Takes memory.
    pub fn pin(&mut self, path: &Word, target: Target) -> Result<RootBack, RootFault>
        ensures answer { IsAnswered (pin_answer self.old path.now target) self.old result self.new }
        ensures restores { IfOk result (λ back.
            (exchanged self.new back).0 ≡ record self.old { room = self.new.room }) }
        ensures fits { IfOk result (λ back. IsTrue (exchange_fits self.new back)) }
        ensures keeps { KeepsRoom self.old self.new }
    {
        if !is_path(path.as_slice()) {
            return Err(RootFault::BadPath);
        }
        if pinned_at(&self.slots, path).is_some() {
            return Err(RootFault::Exists);
        }
        let back = RootBack::Pin {
            path: path.copy()?,
            target: None,
        };
        add_pin(&mut self.slots, path.copy()?, target)?;
        Ok(back)
    }

    /// Takes the pin at the path away. `NoEntry` if nothing is pinned there. Takes memory, for the
    /// path in the exchange.
    pub fn unpin(&mut self, path: &Word) -> Result<RootBack, RootFault>
        ensures answer { IsAnswered (unpin_answer self.old path.now) self.old result self.new }
        ensures restores { IfOk result (λ back.
            (exchanged self.new back).0 ≡ record self.old { room = self.new.room }) }
        ensures fits { IfOk result (λ back. IsTrue (exchange_fits self.new back)) }
        ensures keeps { KeepsRoom self.old self.new }
    {
        if pinned_at(&self.slots, path).is_none() {
            return Err(RootFault::NoEntry);
        }
        let back = path.copy()?;
        let target = exchange_pin(&mut self.slots, path, None);
        Ok(RootBack::Pin { path: back, target })
    }

    /// Attaches the program to the device of the name. `NoDevice` if there is none, else `Busy` if
    /// a program is attached and `overwrite` is not set. It takes no memory.
    pub fn attach(
        &mut self,
        device: &[u8],
        prog: u32,
        overwrite: bool,
    ) -> Result<RootBack, RootFault>
        ensures answer { IsAnswered (attach_answer self.old device.now prog overwrite) self.old result self.new }
        ensures restores { IfOk result (λ back.
            (exchanged self.new back).0 ≡ record self.old { room = self.new.room }) }
        ensures fits { IfOk result (λ back. IsTrue (exchange_fits self.new back)) }
        ensures keeps { KeepsRoom self.old self.new }
        ensures no_growth { result ≢ Err RootFault.NoMemory }
    {
        let Some(position) = position_of(&self.devices, device) else {
            return Err(RootFault::NoDevice);
        };
        if prog_at(&self.devices, position).is_some() && !overwrite {
            return Err(RootFault::Busy);
        }
        let before = exchange_prog(&mut self.devices, position, Some(prog));
        Ok(RootBack::Attachment {
            position,
            prog: before,
        })
    }

    /// Detaches the program of the device of the name. `NoDevice` if there is none, else `NoEntry`
    /// if no program is attached. It takes no memory.
    pub fn detach(&mut self, device: &[u8]) -> Result<RootBack, RootFault>
        ensures answer { IsAnswered (detach_answer self.old device.now) self.old result self.new }
        ensures restores { IfOk result (λ back.
            (exchanged self.new back).0 ≡ record self.old { room = self.new.room }) }
        ensures fits { IfOk result (λ back. IsTrue (exchange_fits self.new back)) }
        ensures keeps { KeepsRoom self.old self.new }
        ensures no_growth { result ≢ Err RootFault.NoMemory }
    {
        let Some(position) = position_of(&self.devices, device) else {
            return Err(RootFault::NoDevice);
        };
        if prog_at(&self.devices, position).is_none() {
            return Err(RootFault::NoEntry);
        }
        let before = exchange_prog(&mut self.devices, position, None);
        Ok(RootBack::Attachment {
            position,
            prog: before,
        })
    }

    /// Puts in place what the exchange holds; it then holds what stood there. The exchange must fit: its
    /// path has room, or its device exists. It takes no memory.
    pub fn turn(&mut self, back: &mut RootBack)
        requires { IsTrue (exchange_fits self.old back.old) }
        ensures roots { self.new ≡ (exchanged self.old back.old).0 }
        ensures back { back.new ≡ (exchanged self.old back.old).1 }
        ensures fits { IsTrue (exchange_fits self.new back.new) }
        ensures keeps { KeepsRoom self.old self.new }
    {
        match back {
            RootBack::Pin { path, target } => {
                *target = exchange_pin(&mut self.slots, path, *target);
            }
            RootBack::Attachment { position, prog } => {
                *prog = exchange_prog(&mut self.devices, *position, *prog);
            }
        }
    }

    /// The objects that are reachable over the links, pairs of from and to, from those that are pinned
    /// and attached: in ascending order, each once. It walks each link once, after a sort of them.
    pub fn live_set(&self, links: &[(Target, Target)]) -> Result<Vec<Target>, NoMemory>
        ensures reachable { IfOk result (λ live. (target : Target) →
            Contains live.items target
            ↔ IsReachable (IsRoot self.now.pins self.now.devices) links.now target) }
        ensures live { IfOk result (λ live. (target : Target) →
            Contains live.items target
            ↔ IsTrue (is_live self.now.pins self.now.devices links.now target)) }
        ensures ascending { IfOk result (λ live. IsAscending live.items) }
    {
        let starts = self.kept()?;
        reachable_from(*self.devices.allocator(), &starts, links)
    }

    /// Whether the target is pinned or attached, or one of these links, pairs of from and to, leads to it from an object
    /// that is: then it is reachable, and no walk need show it. Takes memory.
    pub fn lead_to(&self, links: &[(Target, Target)], target: Target) -> Result<bool, NoMemory>
        ensures { IfOk result (λ lead.
            IsTrue lead ↔ (from : Target) × IsRoot self.now.pins self.now.devices from × IsSource links.now target from) }
    {
        let starts = self.kept()?;
        lead_to(*self.devices.allocator(), &starts, links, target)
    }

    // The objects that are pinned and attached.
    fn kept(&self) -> Result<Vec<Target>, NoMemory>
        ensures { IfOk result (λ kept. (target : Target) →
            Contains kept.items target ↔ IsRoot self.now.pins self.now.devices target) }
    {
        let alloc = *self.devices.allocator();
        let mut kept = pinned_objects(alloc, &self.slots)?;
        let attached = attached_objects(alloc, &self.devices)?;
        kept.extend_from_slice(&attached)?;
        Ok(kept)
    }
}
