//! The code of a program.

ghost use Rattle.std.specs.Prelude.{◌≡◌, IfOk};

use bt_insn::Insn;
use bt_mapkind::MapAttr;
use bt_verify::{Program, Verified};
use host_words::NoMemory;
use std::alloc::Global;
use std::marker::Model;
use std::sync::Arc;

/// Verified code, shared by those that keep it. Contracts see its instructions, and the maps that they name.
#[derive(Debug, Drop)]
pub struct Code {
    verified: Arc<Verified>,
}

impl Model for Code {
    ghost use Rattle.std.specs.Arc.{arc_value};
    ghost use Rattle.bt_verify.specs.Verified.{Checked};

    ghost Value = { Checked };

    ghost view = { λ c. arc_value c.verified };
}

impl Code {
    /// The code that was verified.
    pub fn new(alloc: Global, verified: Verified) -> Result<Code, NoMemory>
        ensures { IfOk result (λ code. code ≡ verified) }
    {
        match Arc::new(alloc, verified) {
            Ok(verified) => Ok(Code { verified }),
            Err(_) => Err(NoMemory),
        }
    }

    /// Another owner of this code. `NoMemory` if its owners are as many as can be counted.
    pub fn share(&self) -> Result<Code, NoMemory>
        ensures { IfOk result (λ code. code ≡ self.now) }
    {
        let verified = Arc::try_clone(&self.verified)?;
        Ok(Code { verified })
    }

    /// The instructions.
    pub fn insns(&self) -> &[Insn]
        ensures { result.now ≡ self.now.insns }
    {
        self.verified.insns()
    }

    /// The maps that they name with their attributes, each once, by ascending id.
    pub fn maps(&self) -> &[(u32, MapAttr)]
        ensures { result.now ≡ self.now.maps }
    {
        self.verified.maps()
    }

    /// A program of this code, to be run under the id.
    pub fn program(&self, id: u32) -> Result<Program, NoMemory>
        ensures { IfOk result (λ program. program ≡ record { id = id; code = self.now }) }
    {
        let code = Arc::try_clone(&self.verified)?;
        Ok(Program { id, code })
    }
}
