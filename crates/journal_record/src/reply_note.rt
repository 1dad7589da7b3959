//! Notes of replies: the same in as few bytes as it takes, on the heap.

ghost use Rattle.std.specs.Prelude.{◌≡◌, IfOk};
ghost use Rattle.journal_model.specs.Replay.{is_same_reply};
ghost use Rattle.journal_record.specs.Note.{reply_of};

use host_state::Reply;
use host_words::NoMemory;
use std::alloc::Global;
use std::marker::Model;

/// The parts of a reply.
#[derive(Debug, Drop)]
pub enum ReplyForm {
    Done,
    Id(u32),
    Loaded(u32),
    Value(Vec<u8>),
    Old(u64),
}

/// A reply, kept. Contracts see the reply.
#[derive(Drop)]
pub struct ReplyNote {
    form: ReplyForm,
}

impl Model for ReplyNote {
    ghost use Rattle.host_state.specs.declared.reply.Reply.{Reply};

    ghost Value = { Reply };

    ghost use Rattle.journal_record.specs.Note.{reply_of};

    ghost view = { λ n. reply_of n.form };
}

impl ReplyNote {
    /// A note of this reply. Takes memory.
    pub fn of(alloc: Global, reply: &Reply) -> Result<ReplyNote, NoMemory>
        ensures { IfOk result (λ note. note ≡ reply.now) }
    {
        let form = match reply {
            Reply::Done => ReplyForm::Done,
            Reply::Id(id) => ReplyForm::Id(*id),
            Reply::Loaded(id) => ReplyForm::Loaded(*id),
            Reply::Value(bytes) => ReplyForm::Value(Vec::from_slice(alloc, bytes.as_slice())?),
            Reply::Old(number) => ReplyForm::Old(*number),
        };
        Ok(ReplyNote { form })
    }

    /// Whether this is the reply.
    pub fn is(&self, reply: &Reply) -> bool
        ensures { result ≡ is_same_reply reply.now self.now }
    {
        match (reply, &self.form) {
            (Reply::Done, ReplyForm::Done) => true,
            (Reply::Id(a), ReplyForm::Id(b)) => *a == *b,
            (Reply::Loaded(a), ReplyForm::Loaded(b)) => *a == *b,
            (Reply::Value(a), ReplyForm::Value(b)) => a.as_slice() == b.as_slice(),
            (Reply::Old(a), ReplyForm::Old(b)) => *a == *b,
            _ => false,
        }
    }
}
