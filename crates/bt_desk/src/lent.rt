//! What frames ask of a desk, lent to its book.

ghost use Rattle.journal_model.specs.Run.{Start, Serve};
ghost use Rattle.bt_without.specs.declared.events.Answer.TheVariants.{Started, Served};
ghost use Rattle.bt_desk.specs.Events.{Steps, device_of};

use crate::shared::Shared;
use bt_mapkind::MapKind;
use bt_verify::Program;
use bt_without::StartFault;
use host_words::Word;
use program_access::{Access, AccessReply};
use thread_lock::Lent;

/// The program that is attached to a device, with the device's ifindex; none if no program is.
pub type Picked = Result<Option<(Program, u32)>, StartFault>;

/// The device at which a frame came in, until the book takes it.
#[derive(Drop)]
pub(crate) struct Starting {
    pub(crate) device: Option<Word>,
}

impl<K: MapKind> Lent<Shared<K>> for Starting {
    type Told = Picked;

    ghost event = { λ s. Start (device_of s.device) };

    ghost answer = { λ picked. Started picked };
}

/// An access of the running program of an id.
#[derive(Drop)]
pub(crate) struct Serving<'a> {
    pub(crate) prog: u32,
    pub(crate) access: &'a Access,
}

impl<'a, K: MapKind> Lent<Shared<K>> for Serving<'a> {
    type Told = AccessReply;

    ghost event = { λ s. Serve s.prog s.access.now };

    ghost answer = { λ reply. Served reply };
}

impl<K: MapKind> Shared<K> {
    /// Starts the program of a frame as the plain book does it.
    pub(crate) fn start(&mut self, asked: &mut Starting) -> Picked
        ensures { Steps self.old (Start (device_of asked.old.device)) (Started result) self.new }
    {
        match asked.device.take() {
            Some(device) => self.book.start(device),
            None => Err(StartFault::NoMemory),
        }
    }

    /// Answers an access as the plain book does it.
    pub(crate) fn serve(&mut self, asked: &mut Serving<'_>) -> AccessReply
        ensures { Steps self.old (Serve asked.old.prog asked.old.access.now) (Served result) self.new }
    {
        self.book.serve(asked.prog, asked.access)
    }
}
