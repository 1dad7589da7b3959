//! What a row is about, and the word for it in the table.

ghost use Rattle.std.specs.Prelude.{◌≡◌, Some};
ghost use Rattle.kept_event.specs.Words.{verb_word, verb_of, spelled_by, operations, commands};

/// What happened: an operation on a map, another change of the host, or a move of the journal. The names are those of the
/// commands; `Store` and `Atomic` are what programs do, `SetLink` is a link as an operation.
#[derive(Clone, Copy, PartialEq, Eq, Debug)]
pub enum Verb {
    Update,
    Delete,
    Push,
    Pop,
    Store,
    Atomic,
    SetLink,
    Create,
    Load,
    Link,
    Freeze,
    Pin,
    Unpin,
    Attach,
    Detach,
    Mark,
    Undo,
    Redo,
    Without,
    Forget,
}

// The operation that a word names.
fn operation(word: &[u8]) -> Option<Verb>
    ensures { result ≡ spelled_by verb_word operations word.now }
{
    if word == b"update".as_slice() {
        Some(Verb::Update)
    } else if word == b"delete".as_slice() {
        Some(Verb::Delete)
    } else if word == b"push".as_slice() {
        Some(Verb::Push)
    } else if word == b"pop".as_slice() {
        Some(Verb::Pop)
    } else if word == b"store".as_slice() {
        Some(Verb::Store)
    } else if word == b"atomic".as_slice() {
        Some(Verb::Atomic)
    } else if word == b"set_link".as_slice() {
        Some(Verb::SetLink)
    } else {
        None
    }
}

// The other verb that a word names.
fn command(word: &[u8]) -> Option<Verb>
    ensures { result ≡ spelled_by verb_word commands word.now }
{
    if word == b"create".as_slice() {
        Some(Verb::Create)
    } else if word == b"load".as_slice() {
        Some(Verb::Load)
    } else if word == b"link".as_slice() {
        Some(Verb::Link)
    } else if word == b"freeze".as_slice() {
        Some(Verb::Freeze)
    } else if word == b"pin".as_slice() {
        Some(Verb::Pin)
    } else if word == b"unpin".as_slice() {
        Some(Verb::Unpin)
    } else if word == b"attach".as_slice() {
        Some(Verb::Attach)
    } else if word == b"detach".as_slice() {
        Some(Verb::Detach)
    } else if word == b"mark".as_slice() {
        Some(Verb::Mark)
    } else if word == b"undo".as_slice() {
        Some(Verb::Undo)
    } else if word == b"redo".as_slice() {
        Some(Verb::Redo)
    } else if word == b"without".as_slice() {
        Some(Verb::Without)
    } else if word == b"forget".as_slice() {
        Some(Verb::Forget)
    } else {
        None
    }
}

impl Verb {
    /// The word for it in the column `verb`.
    pub fn word(self) -> &'static [u8]
        ensures { result.now ≡ verb_word self }
    {
        match self {
            Verb::Update => b"update",
            Verb::Delete => b"delete",
            Verb::Push => b"push",
            Verb::Pop => b"pop",
            Verb::Store => b"store",
            Verb::Atomic => b"atomic",
            Verb::SetLink => b"set_link",
            Verb::Create => b"create",
            Verb::Load => b"load",
            Verb::Link => b"link",
            Verb::Freeze => b"freeze",
            Verb::Pin => b"pin",
            Verb::Unpin => b"unpin",
            Verb::Attach => b"attach",
            Verb::Detach => b"detach",
            Verb::Mark => b"mark",
            Verb::Undo => b"undo",
            Verb::Redo => b"redo",
            Verb::Without => b"without",
            Verb::Forget => b"forget",
        }
    }

    /// The verb of a word, if it is one.
    pub fn of(word: &[u8]) -> Option<Verb>
        ensures { result ≡ verb_of word.now }
    {
        match operation(word) {
            Some(verb) => Some(verb),
            None => command(word),
        }
    }
}
