//! What a kept book began with.

ghost use Rattle.std.specs.Prelude.{◌≡◌};
ghost use Rattle.journal_model.specs.Book.{limits_are_good};
ghost use Rattle.kept_ledger.specs.TermsView.{AreGood, FitLimits, terms_of};

use bt_roots::devices_are_good;
use host_words::Word;
use journal_model::Limits;
use std::marker::Model;

/// The devices and the limits that a kept book began with. What it is now they and its events tell.
#[derive(Debug, Drop)]
pub struct Terms {
    devices: Vec<Word>,
    limits: Limits,
}

impl Model for Terms {
    ghost use Rattle.kept_ledger.specs.TermsView.{PlainTerms, terms_code, AreGood};

    ghost Value = { PlainTerms };

    ghost coded = { terms_code };

    ghost view = { λ t. record { devices = t.devices.items; limits = t.limits } };

    ghost invariant = { λ t. AreGood (record { devices = t.devices.items; limits = t.limits }) };
}

// Whether a book can have these limits. `Book::new` of bt_journal has this range, too.
fn limits_are_good(limits: &Limits) -> bool
    ensures { result ≡ limits_are_good limits.now }
{
    (1..=1_000_000).contains(&limits.journal)
}

// These limits, whose numbers are of their types.
fn fitting(limits: Limits) -> Limits
    ensures same { result ≡ limits }
    ensures fit { FitLimits limits }
{
    Limits {
        journal: limits.journal,
        budget: limits.budget,
        last_id: limits.last_id,
        last_serial: limits.last_serial,
    }
}

impl Terms {
    /// The terms of a book with these devices and limits. None if there are not 1 to 16 devices of good and distinct names,
    /// or the limits give a journal of 0 or more than 1,000,000 moments: no book begins so.
    pub fn new(devices: Vec<Word>, limits: Limits) -> Option<Terms>
        ensures { result ≡ terms_of devices.items limits }
    {
        if devices_are_good(&devices) && limits_are_good(&limits) {
            Some(Terms { devices, limits })
        } else {
            None
        }
    }

    /// The names of the devices.
    pub fn devices(&self) -> &[Word]
        ensures { result.now ≡ self.now.devices }
    {
        self.devices.as_slice()
    }

    /// The limits, of which each is of its type, and with which a book can begin.
    pub fn limits(&self) -> Limits
        ensures value { result ≡ self.now.limits }
        ensures good { AreGood self.now }
        ensures fit { FitLimits self.now.limits }
    {
        fitting(self.limits)
    }

    /// The names of the devices and the limits, as a new book takes them.
    pub fn into_parts(self) -> (Vec<Word>, Limits)
        ensures devices { result.0.items ≡ self.devices }
        ensures limits { result.1 ≡ self.limits }
        ensures good { AreGood self }
    {
        let Terms { devices, limits } = self;
        (devices, limits)
    }
}
