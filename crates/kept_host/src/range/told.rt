//! What is told of a range beside its answer.

ghost use Rattle.std.specs.Prelude.{◌≡◌};
ghost use Rattle.std.specs.Io.KnownBytes.{Keeps};

use crate::range::taken::Taken;
use bt_journal::Book;
use bt_mapkind::MapKind;
use console_answer::{Fault, Mishap};
use console_text::Output;
use kept_lines::{Asides, Wrong};

/// Tells what became of the changes that a line of this number names: what was taken out, or why none is.
pub(crate) fn told<K: MapKind, A: Asides<K, W>, W: Output>(
    asides: &mut A,
    book: &mut Book<K>,
    number: u64,
    line: &[u8],
    taken: Taken,
    out: &mut W,
)
    ensures same { book.new.plain ≡ book.old.plain }
    ensures kept { Keeps (W.contents out.old) (W.contents out.new) }
{
    let fault = match taken {
        Taken::All(_) => {
            asides.turned(book);
            return;
        }
        Taken::NoneInForce => Fault::NotInForce,
        Taken::Refused(fault) => fault,
    };
    let wrong = Wrong {
        number,
        line,
        accepted: 0,
        mishap: Mishap::Refused(fault),
    };
    asides.tell(book, &[], wrong, out);
}
