//! Programs by id.

ghost use Rattle.std.specs.Prelude.{◌≡◌};

use crate::verified::Verified;
use std::marker::Model;
use std::sync::Arc;

/// A verified program with its id, shared by those that run it. Contracts see its id, its instructions and its maps.
#[derive(Debug, Drop)]
pub struct Program {
    pub id: u32,
    pub code: Arc<Verified>,
}

impl Model for Program {
    ghost use Rattle.std.specs.Arc.{arc_value};
    ghost use Rattle.bt_verify.specs.Program.{ProgramView};

    ghost Value = { ProgramView };

    ghost view = { λ p. record { id = p.id; code = arc_value p.code } };
}

impl Program {
    /// Its verified instructions, with the maps that they name.
    #[inline]
    pub fn verified(&self) -> &Verified
        ensures { result.now ≡ self.now.code }
    {
        &self.code
    }
}
