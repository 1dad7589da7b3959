//! What takings out noted and answered, and is not kept yet.

ghost use Rattle.std.specs.Prelude.{◌≡◌, ◌++◌, ◌∷◌, [], Some, OnOk};
ghost use Rattle.console_answer.specs.declared.answer.Answer.TheVariants as answer;
ghost use Rattle.console_text.specs.Text.{text_of};
ghost use Rattle.kept_event.specs.declared.event.KeptEvent.TheVariants as kept;

use console_answer::Answer;
use console_text::put_answer;
use host_words::NoMemory;
use kept_file::KeptEvent;
use std::alloc::Global;

/// What takings out noted, and what they answered.
#[derive(Drop)]
pub(crate) struct Held {
    pub(crate) events: Vec<KeptEvent>,
    pub(crate) text: Vec<u8>,
}

// Adds an event to a list.
fn push(events: &mut Vec<KeptEvent>, event: KeptEvent) -> Result<(), NoMemory>
    ensures { OnOk result (events.new.items ≡ events.old.items ++ event ∷ []) }
{
    events.push(event)?;
    Ok(())
}

// Adds the text of an answer.
fn tell(text: &mut Vec<u8>, answer: Answer) -> Result<(), NoMemory>
    ensures { OnOk result (text.new.items ≡ text.old.items ++ text_of answer) }
{
    match put_answer(text, &answer) {
        Ok(()) => Ok(()),
        Err(_) => Err(NoMemory),
    }
}

impl Held {
    /// Nothing was taken out.
    pub(crate) fn new(alloc: Global) -> Held
        ensures events { result.events.items ≡ [] }
        ensures text { result.text.items ≡ [] }
    {
        Held {
            events: Vec::new(alloc),
            text: Vec::new(alloc),
        }
    }

    /// Adds the taking out of a serial under its own, and its answer.
    pub(crate) fn add(&mut self, serial: u64, own: u64) -> Result<(), NoMemory>
        ensures events { OnOk result (self.new.events.items ≡ self.old.events.items ++ kept.TakenOut serial own ∷ []) }
        ensures text { OnOk result (self.new.text.items ≡ self.old.text.items ++ text_of (answer.TakenOut own)) }
    {
        push(&mut self.events, KeptEvent::TakenOut { serial, own })?;
        tell(&mut self.text, Answer::TakenOut(own))
    }
}
