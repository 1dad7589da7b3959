//! When an event was added, as a log tells it.

ghost use Rattle.std.specs.Prelude.{◌≡◌, false, Some};
ghost use Rattle.jiff_fmt.specs.Printer.{options};
ghost use Rattle.kept_log.specs.Logged.{IsTimeOf};
ghost use Rattle.kept_log.specs.LogText.{clock_text};

use arrayvec::ArrayString;
use jiff_core::civil::DateTime;
use jiff_fmt::temporal::DateTimePrinter;

/// When an event was added.
#[derive(Clone, Copy, Debug)]
pub enum LogTime {
    /// What a clock in UTC showed.
    Clock(DateTime),
    /// The milliseconds since 1970 of a time after the year 9999.
    Beyond(u64),
}

/// What a clock in UTC shows so many milliseconds after 1970 began there.
pub(crate) fn time_of(milliseconds: u64) -> LogTime
    ensures { IsTimeOf milliseconds result }
{
    match DateTime::from_nanosecond(milliseconds as i128 * 1_000_000) {
        Ok(at) => LogTime::Clock(at),
        Err(_) => LogTime::Beyond(milliseconds),
    }
}

// Prints a blank between the date and the time of day, and no fraction of a second.
fn printer() -> DateTimePrinter
    ensures { options result ≡ (false, 32, Some 0) }
{
    DateTimePrinter::new().separator(b' ').precision(Some(0))
}

/// The text of what a clock shows, in seconds.
pub(crate) fn clock_text(at: DateTime) -> ArrayString<32>
    ensures { result.bytes ≡ clock_text at }
{
    printer().datetime_text(at)
}
