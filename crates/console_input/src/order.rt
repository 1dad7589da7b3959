//! What the arguments ask.

ghost use Rattle.std.specs.Prelude.{◌≡◌, ◌∷◌, List, Result, Ok};
ghost use Rattle.std.specs.Vec.Iter.{into_iter_items};
ghost use Rattle.std.specs.declared.alloc.Global.{Global};
ghost use Rattle.std.specs.declared.string.String.{String};
ghost use Rattle.console_input.specs.Live.{AreWithin};
ghost use Rattle.console_input.specs.Orders.{asked_alone, asked_of_one, asked_of_two, asked_of_three, asked_of_more, asked_of_paths, asked_by, begins_command, fault_by, order_by_words, order_in};
ghost use Rattle.console_input.specs.declared.fault.ArgsFault.{ArgsFault};
ghost use Rattle.console_input.specs.declared.live.Live.{Live};

use crate::fault::ArgsFault;
use crate::live::{Live, live_of};
use std::vec::IntoIter;

/// What the arguments ask.
#[derive(Drop)]
pub enum Order {
    /// To say how the program is called.
    Help,
    /// To say which version of the program this is.
    Version,
    /// To answer each line of standard input when it is given.
    Shell,
    /// To run the script from standard input.
    RunInput,
    /// To run the script of this path.
    Run(String),
    /// To run the script of the first path, and then to serve the frames of the second.
    Host(String, String),
    /// And then to run the script of the third.
    HostThen(String, String, String),
    /// To run a script, and then to answer the lines of standard input while threads serve frames.
    Live(Live),
}

// What a verb asks by itself.
fn order_of_none(verb: &str) -> Option<Order>
    ensures { result ≡ asked_alone verb.now }
{
    match verb {
        "help" | "--help" | "-h" => Some(Order::Help),
        "version" | "--version" | "-V" => Some(Order::Version),
        "shell" => Some(Order::Shell),
        _ => None,
    }
}

// What a verb asks of one path.
fn order_of_one(verb: &str, path: String) -> Option<Order>
    ensures { result ≡ asked_of_one verb.now path }
{
    if verb != "run" {
        None
    } else if path.as_str() == "-" {
        Some(Order::RunInput)
    } else {
        Some(Order::Run(path))
    }
}

// What a verb asks of two paths.
fn order_of_two(verb: &str, script: String, frames: String) -> Option<Order>
    ensures { result ≡ asked_of_two verb.now script frames }
{
    if verb == "host" {
        Some(Order::Host(script, frames))
    } else {
        None
    }
}

// What a verb asks of three paths.
fn order_of_three(verb: &str, script: String, frames: String, after: String) -> Option<Order>
    ensures { result ≡ asked_of_three verb.now script frames after }
{
    if verb == "host" {
        Some(Order::HostThen(script, frames, after))
    } else {
        None
    }
}

// What a verb asks of two paths, and of those after them.
fn order_of_more(
    verb: &str,
    script: String,
    frames: String,
    mut paths: IntoIter<String>,
) -> Option<Order>
    ensures { result ≡ asked_of_more verb.now script frames (into_iter_items paths) }
{
    match (paths.next(), paths.next()) {
        (None, None) => order_of_two(verb, script, frames),
        (Some(after), None) => order_of_three(verb, script, frames, after),
        _ => None,
    }
}

// What a verb asks of the paths after it.
fn order_of_paths(verb: &str, mut paths: IntoIter<String>) -> Option<Order>
    ensures { result ≡ asked_of_paths verb.now (into_iter_items paths) }
{
    match (paths.next(), paths.next()) {
        (None, None) => order_of_none(verb),
        (Some(path), None) => order_of_one(verb, path),
        (Some(script), Some(frames)) => order_of_more(verb, script, frames, paths),
        _ => None,
    }
}

// What a verb asks with the words after it.
fn order_by(verb: &str, words: IntoIter<String>) -> Option<Order>
    ensures { result ≡ asked_by verb.now (into_iter_items words) }
{
    if verb != "live" {
        return order_of_paths(verb, words);
    }
    match live_of(words) {
        Some(live) => Some(Order::Live(live)),
        None => None,
    }
}

/// Whether a command of a script begins with this word, which is then no verb of the program.
pub(crate) fn begins_command(word: &str) -> bool
    ensures { result ≡ begins_command word.now }
{
    matches!(
        word,
        "map" | "prog" | "net" | "batch" | "unpin" | "frame" | "journal"
    )
}

// Why words that begin with this one ask nothing.
fn fault_by(verb: &str) -> ArgsFault
    ensures { result ≡ fault_by verb.now }
{
    if begins_command(verb) {
        ArgsFault::Command
    } else {
        ArgsFault::Usage
    }
}

/// What a verb asks with the words after it.
///
/// # Errors
/// `Command` where it begins a command of a script, else `Usage`.
pub(crate) fn order_by_verb(verb: String, words: IntoIter<String>) -> Result<Order, ArgsFault>
    ensures { result ≡ order_by_words (verb ∷ into_iter_items words) }
{
    match order_by(verb.as_str(), words) {
        Some(order) => Ok(order),
        None => Err(fault_by(verb.as_str())),
    }
}

/// Whatever the arguments are, a request for a live host has each option within its bounds: a law.
pub fn live_options_are_within_bounds()
    ensures { (args : Result (List (String Global)) ArgsFault) (live : Live) → order_in args ≡ Ok (Order.Live live) → AreWithin live.options }
{}
