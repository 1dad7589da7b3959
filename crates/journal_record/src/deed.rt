//! What a list tells of a change that was kept.

ghost use Rattle.std.specs.Prelude.{◌≡◌, IfOk};
ghost use Rattle.journal_model.specs.Listed.{origin_of, deed_of};
ghost use Rattle.journal_record.specs.Note.{change_of};

use crate::note::ChangeForm;
use host_state::Origin;
use host_words::NoMemory;
use journal_model::Deed;

/// Who made it.
pub fn origin_in(form: &ChangeForm) -> Origin
    ensures { result ≡ origin_of (change_of form.now) }
{
    match form {
        ChangeForm::Operate { origin, .. } => *origin,
        ChangeForm::Create { .. }
        | ChangeForm::Freeze { .. }
        | ChangeForm::Link { .. }
        | ChangeForm::Load { .. }
        | ChangeForm::Pin { .. }
        | ChangeForm::Unpin { .. }
        | ChangeForm::Attach { .. }
        | ChangeForm::Detach { .. } => Origin::Console,
    }
}

/// What it did. Takes memory.
pub fn deed_in(form: &ChangeForm) -> Result<Deed, NoMemory>
    ensures { IfOk result (λ deed. deed ≡ deed_of (change_of form.now)) }
{
    let deed = match form {
        ChangeForm::Create { id, .. } => Deed::Create(*id),
        ChangeForm::Operate { map, op, .. } => op.deed(*map),
        ChangeForm::Freeze { map } => Deed::Freeze(*map),
        ChangeForm::Link { map, .. } => Deed::Link(*map),
        ChangeForm::Load { id, .. } => Deed::Load(*id),
        ChangeForm::Pin { path, .. } => Deed::Pin(path.copy()?),
        ChangeForm::Unpin { path } => Deed::Unpin(path.copy()?),
        ChangeForm::Attach { device, .. } => Deed::Attach(device.copy()?),
        ChangeForm::Detach { device } => Deed::Detach(device.copy()?),
    };
    Ok(deed)
}
