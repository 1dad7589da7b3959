//! Questions about devices.

ghost use Rattle.std.specs.Prelude.{◌≡◌, ◌++◌, ◌≤◌, Some, length, IfOk, OnOk};
ghost use Rattle.host_state.specs.Ask.{device_rows_if, device_rows, devices_shown};
ghost use Rattle.host_state.specs.declared.ask.AskReply.TheVariants.{Devices as DevicesReply};

use bt_mapkind::Errno;
use bt_roots::{Device, Roots};
use host_state::{AskReply, DeviceRow, Listing};
use host_words::{NoMemory, Word};
use std::alloc::Global;

// Adds what is shown of a device, if a program is attached to it.
fn push_row(
    rows: &mut Vec<DeviceRow>,
    name: &Word,
    ifindex: u32,
    prog: Option<u32>,
) -> Result<(), NoMemory>
    ensures { OnOk result (rows.new.items ≡ rows.old.items ++ device_rows_if name.now ifindex prog) }
{
    if let Some(prog) = prog {
        let name = name.copy()?;
        rows.push(DeviceRow {
            name,
            ifindex,
            prog,
        })?;
    }
    Ok(())
}

// What is shown of every device to which a program is attached, in order.
fn show_all(alloc: Global, devices: &[Device]) -> Result<AskReply, NoMemory>
    requires { length devices.now ≤ 16 }
    ensures { IfOk result (λ reply. reply ≡ DevicesReply (device_rows 1 devices.now)) }
{
    let mut rows = Vec::new(alloc);
    for (position, device) in devices.iter().enumerate() {
        push_row(&mut rows, &device.name, position as u32 + 1, device.prog)?;
    }
    Ok(AskReply::Devices(Listing::of(rows)))
}

// What is shown of a device.
fn show_one(alloc: Global, roots: &Roots, name: &Word) -> Result<AskReply, NoMemory>
    ensures { IfOk result (λ reply. reply ≡ devices_shown roots.now.devices (Some name.now)) }
{
    let Some((ifindex, prog)) = roots.device(name.as_slice()) else {
        return Ok(AskReply::Refused(Errno::ENOENT));
    };
    let mut rows = Vec::new(alloc);
    push_row(&mut rows, name, ifindex, prog)?;
    Ok(AskReply::Devices(Listing::of(rows)))
}

/// What is shown of every device to which a program is attached, in order, or of this one.
pub(crate) fn show_devices(
    alloc: Global,
    roots: &Roots,
    only: &Option<Word>,
) -> Result<AskReply, NoMemory>
    ensures { IfOk result (λ reply. reply ≡ devices_shown roots.now.devices only.now) }
{
    match only {
        Some(name) => show_one(alloc, roots, name),
        None => show_all(alloc, roots.devices()),
    }
}
