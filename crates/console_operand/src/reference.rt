//! References to maps and programs: `id NUM`, `pinned FILE`, `name NAME`.

ghost use Rattle.std.specs.Prelude.{◌≡◌, IfOk};
ghost use Rattle.console_operand.specs.Word.{spelled_by};
ghost use Rattle.console_operand.specs.ReferenceSteps.{form_word, forms, naming_step};

use crate::NoMemory;
use crate::number::number_of;
use crate::words::LineWord;
use host_words::Word;
use std::alloc::Global;

/// Which object a command speaks of.
#[derive(PartialEq, Eq, Debug, Drop)]
pub enum Reference<P = Word> {
    /// The object of this id.
    Id(u32),
    /// The object that is pinned at this path.
    Pinned(P),
    /// The object of this name.
    Named(P),
}

/// A reference where it stands in its line.
pub type LineReference<'a> = Reference<LineWord<'a>>;

impl<'a> Reference<LineWord<'a>> {
    /// Another borrow of this reference, of the line that it stands in.
    pub fn again(&self) -> LineReference<'a>
        ensures { result ≡ self.now }
    {
        match self {
            Reference::Id(id) => Reference::Id(*id),
            Reference::Pinned(path) => Reference::Pinned(path.again()),
            Reference::Named(name) => Reference::Named(name.again()),
        }
    }

    /// The reference with a path or a name that it owns. NoMemory if none is left for it.
    pub fn copy(&self, alloc: Global) -> Result<Reference, NoMemory>
        ensures { IfOk result (λ reference. reference ≡ self.now) }
    {
        match self {
            Reference::Id(id) => Ok(Reference::Id(*id)),
            Reference::Pinned(path) => Ok(Reference::Pinned(path.copy(alloc)?)),
            Reference::Named(name) => Ok(Reference::Named(name.copy(alloc)?)),
        }
    }
}

/// How an object is referred to.
#[derive(Clone, Copy)]
pub enum Form {
    Id,
    Pinned,
    Name,
}

impl Form {
    pub fn of(word: &[u8]) -> Option<Form>
        ensures { result ≡ spelled_by form_word forms word.now }
    {
        if word == b"id".as_slice() {
            Some(Form::Id)
        } else if word == b"pinned".as_slice() {
            Some(Form::Pinned)
        } else if word == b"name".as_slice() {
            Some(Form::Name)
        } else {
            None
        }
    }
}

/// A reference of which words are missing.
#[derive(Clone, Copy)]
pub enum Naming {
    /// The word that tells its form comes next.
    Form,
    /// The word that tells the object comes next.
    Object(Form),
}

/// A reference after one more word.
#[derive(Drop)]
pub enum Named<'a> {
    Going(Naming),
    Found(LineReference<'a>),
}

impl Naming {
    /// What one more word makes of it; `None` if no reference goes on so.
    pub fn after<'a>(self, word: &'a [u8]) -> Option<Named<'a>>
        ensures { result ≡ naming_step self word.now }
    {
        match self {
            Naming::Form => {
                let form = Form::of(word)?;
                Some(Named::Going(Naming::Object(form)))
            }
            Naming::Object(Form::Id) => {
                let id = number_of(word)?;
                Some(Named::Found(Reference::Id(id)))
            }
            Naming::Object(Form::Pinned) => {
                Some(Named::Found(Reference::Pinned(LineWord::new(word))))
            }
            Naming::Object(Form::Name) => {
                Some(Named::Found(Reference::Named(LineWord::new(word))))
            }
        }
    }
}
