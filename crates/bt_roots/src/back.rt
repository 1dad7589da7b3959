//! The exchange that takes a change of the roots back.
ghost use Rattle.std.specs.Prelude.{◌≡◌};
ghost use Rattle.bt_roots.specs.Exchange.{target_of};

use crate::target::Target;
use host_words::Word;

/// One entry of the roots, and what is to stand there. `Roots::turn` exchanges that with what stands
/// there; turned twice it leaves everything as it was.
#[derive(Debug, Drop)]
pub enum RootBack {
    /// The path of a pin, with the object to pin there; with none the pin goes.
    Pin { path: Word, target: Option<Target> },
    /// The position of a device in the list, from 0, with the id of the program to attach there;
    /// with none it is detached.
    Attachment { position: usize, prog: Option<u32> },
}

impl RootBack {
    /// The object that a turn would pin or attach, if any.
    pub fn target(&self) -> Option<Target>
        ensures { result ≡ target_of self.now }
    {
        match self {
            RootBack::Pin { target, .. } => *target,
            RootBack::Attachment { prog, .. } => prog.map(Target::Prog),
        }
    }
}
