//! What the question for a map's attributes is answered.

ghost use Rattle.std.specs.Prelude.{◌≡◌};
ghost use Rattle.journal_access.specs.Serving.{attr_reply};
ghost use Rattle.journal_model.specs.Serve.{tells_attr, load_fault, inner_told, lookup_fault};

use bt_mapkind::{Errno, MapAttr};
use host_state::{holds_ids, holds_progs};
use program_access::AccessReply;
use std::marker::Model;

/// The answer to the question for a map's attributes: those of a live map, or that there is none. Contracts see the answer as
/// one of all that a book gives, which have room for a key and a value; this has none.
#[derive(Debug, Drop)]
pub struct AttrTold {
    attr: Option<MapAttr>,
}

impl Model for AttrTold {
    ghost use Rattle.host_state.specs.declared.ask.AskReply.{AskReply};
    ghost use Rattle.journal_access.specs.Serving.{attr_reply};

    ghost Value = { AskReply };

    ghost view = { λ t. attr_reply t.attr };
}

impl AttrTold {
    /// The answer of a live map with these attributes; that of none if there are none.
    pub fn new(attr: Option<MapAttr>) -> AttrTold
        ensures { result ≡ attr_reply attr }
    {
        AttrTold { attr }
    }

    /// Whether a map told its attributes, as one that is live does.
    pub fn is_live(&self) -> bool
        ensures { result ≡ tells_attr self.now }
    {
        self.attr.is_some()
    }

    /// What stands against a load whatever the map holds.
    pub fn load_fault(&self) -> Option<AccessReply>
        ensures { result ≡ load_fault self.now }
    {
        match self.attr {
            Some(attr) => {
                if holds_ids(attr.kind) {
                    Some(AccessReply::OutOfRange)
                } else {
                    None
                }
            }
            None => Some(AccessReply::Gone),
        }
    }

    /// An inner map of this id, with its attributes.
    pub fn inner(&self, id: u32) -> AccessReply
        ensures { result ≡ inner_told id self.now }
    {
        match self.attr {
            Some(attr) => AccessReply::Map(id, attr),
            None => AccessReply::Nothing,
        }
    }

    /// What stands against a lookup whatever the map holds.
    pub fn lookup_fault(&self) -> Option<AccessReply>
        ensures { result ≡ lookup_fault self.now }
    {
        match self.attr {
            Some(attr) => {
                if holds_progs(attr.kind) {
                    Some(AccessReply::Errno(Errno::EINVAL))
                } else {
                    None
                }
            }
            None => Some(AccessReply::Gone),
        }
    }
}
