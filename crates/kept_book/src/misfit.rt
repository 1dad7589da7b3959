//! Why kept events are not done again.

ghost use Rattle.std.specs.Prelude.{◌≡◌};
ghost use Rattle.kept_book.specs.Redone.{recording_misfit, marking_misfit, taking_misfit, fitting};

use bt_journal::{MarkFault, WithoutFault};
use host_state::Refusal;

/// Why a kept event is not done again.
#[derive(Clone, Copy, PartialEq, Eq, Debug)]
pub enum Misfit {
    /// The book refuses the event, or answers it otherwise than it did: under another serial, or with another id for a new
    /// map or program; or a new map's box charges otherwise.
    DoesNotFit,
    NoMemory,
}

/// Where a list of kept events is not done again any further.
#[derive(Clone, Copy, PartialEq, Eq, Debug)]
pub struct Stop {
    /// The position of the event in the list, from 1.
    pub place: u64,
    pub why: Misfit,
}

/// Nothing if it fits, else that it does not.
pub fn fitting(fits: bool) -> Result<(), Misfit>
    ensures { result ≡ fitting fits }
{
    if fits {
        Ok(())
    } else {
        Err(Misfit::DoesNotFit)
    }
}

/// Why a change is not recorded as it was.
pub fn recording_misfit(refusal: Refusal) -> Misfit
    ensures { result ≡ recording_misfit refusal }
{
    match refusal {
        Refusal::NoMemory => Misfit::NoMemory,
        Refusal::Errno(_)
        | Refusal::JournalFull
        | Refusal::BudgetFull
        | Refusal::SerialsSpent
        | Refusal::IdsSpent
        | Refusal::WrongBlank => Misfit::DoesNotFit,
    }
}

/// Why a mark is not made as it was.
pub fn marking_misfit(fault: MarkFault) -> Misfit
    ensures { result ≡ marking_misfit fault }
{
    match fault {
        MarkFault::NoMemory => Misfit::NoMemory,
        MarkFault::BadName | MarkFault::MarkTaken => Misfit::DoesNotFit,
    }
}

/// Why a change is not taken out as it was.
pub fn taking_misfit(fault: WithoutFault) -> Misfit
    ensures { result ≡ taking_misfit fault }
{
    match fault {
        WithoutFault::NoMemory => Misfit::NoMemory,
        WithoutFault::NotInForce
        | WithoutFault::SerialsSpent
        | WithoutFault::JournalFull
        | WithoutFault::DependsOn(_) => Misfit::DoesNotFit,
    }
}
