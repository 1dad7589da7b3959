//! What the arguments ask: of a book that is kept in a file, or without one.

ghost use Rattle.std.specs.Prelude.{◌≡◌, ◌∷◌, List, Option, Result, Ok, string_bytes};
ghost use Rattle.std.specs.Vec.Iter.{into_iter_items};
ghost use Rattle.std.specs.declared.alloc.Global.{Global};
ghost use Rattle.std.specs.declared.string.String.{String};
ghost use Rattle.console_input.specs.Book.{Asked, script_at, asked_alone, asked_of_one, asked_of_two, asked_of_more, asked_of_words, live_on_book, asked_of_book, asked_for, GivesLines, IsOfBook, is_of_book, plain, RequestWith, RequestWithout, RequestBy, RequestIn, IsRequest};
ghost use Rattle.console_input.specs.Live.{asked_live};
ghost use Rattle.console_input.specs.Orders.{behind_name, order_in};
ghost use Rattle.console_input.specs.declared.fault.ArgsFault.{ArgsFault};
ghost use Rattle.console_input.specs.declared.order.Order.{Order};

use crate::arguments::Arguments;
use crate::fault::ArgsFault;
use crate::line::{begins_line, first_word, line_of_more, line_of_three, line_of_two};
use crate::live::{Live, live_of};
use crate::options::{BookOptions, Opted, is_option, take_options};
use crate::order::{Order, order_by_verb};
use crate::surroundings::Surroundings;
use std::alloc::Global;
use std::vec::IntoIter;

/// The lines that are run on a book.
#[derive(Drop)]
pub enum BookLines {
    /// One line.
    Line(Vec<u8>),
    /// The script from standard input.
    Input,
    /// The script of this path.
    Script(String),
    /// The lines of standard input, each of which is answered when it is given.
    Shell,
    /// The script of the first path, and then the frames of the second, which workers serve.
    Host(String, String),
    /// A script, and then the lines of standard input, each of which is answered when it is given, while workers serve frames.
    Live(Live),
}

/// Lines that are run on the book that a file keeps.
#[derive(Drop)]
pub struct BookOrder {
    /// The path of the file.
    pub file: String,
    /// For how many seconds to wait if the file is in use.
    pub wait: u32,
    pub lines: BookLines,
}

/// What the arguments ask.
#[derive(Drop)]
pub enum Request {
    /// Something without a file that keeps a book.
    Plain(Order),
    /// Lines on the book that a file keeps.
    Book(BookOrder),
}

// What a verb asks of a book by itself.
fn asked_alone(alloc: Global, verb: &str) -> Result<BookLines, ArgsFault>
    ensures { GivesLines (asked_alone verb.now) result }
{
    if verb == "shell" {
        return Ok(BookLines::Shell);
    }
    let line = first_word(alloc, verb)?;
    Ok(BookLines::Line(line))
}

// A script from a file, or from standard input.
fn script_at(path: String) -> BookLines
    ensures { asked_for result ≡ script_at (string_bytes path) }
{
    if path.as_str() == "-" {
        BookLines::Input
    } else {
        BookLines::Script(path)
    }
}

// What a verb with one word after it asks of a book.
fn asked_of_one(alloc: Global, verb: &str, word: String) -> Result<BookLines, ArgsFault>
    ensures { GivesLines (asked_of_one verb.now word) result }
{
    if verb == "run" {
        Ok(script_at(word))
    } else {
        line_of_two(alloc, verb, word)
    }
}

// What a verb with two words after it asks of a book.
fn asked_of_two(alloc: Global, verb: &str, one: String, two: String) -> Result<BookLines, ArgsFault>
    ensures { GivesLines (asked_of_two verb.now one two) result }
{
    if verb == "host" {
        Ok(BookLines::Host(one, two))
    } else {
        line_of_three(alloc, verb, one, two)
    }
}

// What a verb with two words after it, and with those after them, asks of a book.
fn asked_of_more(
    alloc: Global,
    verb: &str,
    one: String,
    two: String,
    mut words: IntoIter<String>,
) -> Result<BookLines, ArgsFault>
    ensures { GivesLines (asked_of_more verb.now one two (into_iter_items words)) result }
{
    match words.next() {
        None => asked_of_two(alloc, verb, one, two),
        Some(three) => line_of_more(alloc, verb, one, two, three, words),
    }
}

// What a verb asks of a book with the words after it, none of which is an option.
fn asked_of_words(
    alloc: Global,
    verb: &str,
    mut words: IntoIter<String>,
) -> Result<BookLines, ArgsFault>
    ensures { GivesLines (asked_of_words verb.now (into_iter_items words)) result }
{
    match (words.next(), words.next()) {
        (None, _) => asked_alone(alloc, verb),
        (Some(word), None) => asked_of_one(alloc, verb, word),
        (Some(one), Some(two)) => asked_of_more(alloc, verb, one, two, words),
    }
}

// What the words after `live` ask of a book.
fn live_on_book(words: IntoIter<String>) -> Result<BookLines, ArgsFault>
    ensures { GivesLines (live_on_book (asked_live (into_iter_items words))) result }
{
    let Some(live) = live_of(words) else {
        return Err(ArgsFault::Usage);
    };
    if live.sizes_given {
        return Err(ArgsFault::NotOfBook);
    }
    Ok(BookLines::Live(live))
}

// What a verb asks of a book with the words after it.
fn asked_by(alloc: Global, verb: String, words: IntoIter<String>) -> Result<BookLines, ArgsFault>
    ensures { GivesLines (asked_of_book (verb ∷ into_iter_items words)) result }
{
    if verb.as_str() == "live" {
        live_on_book(words)
    } else {
        asked_of_words(alloc, verb.as_str(), words)
    }
}

// What a verb and the words after it ask of the book of a file.
fn of_book(
    alloc: Global,
    file: String,
    wait: u32,
    verb: String,
    words: IntoIter<String>,
) -> Result<Request, ArgsFault>
    ensures { IsOfBook file wait (verb ∷ into_iter_items words) result }
{
    match asked_by(alloc, verb, words) {
        Ok(lines) => Ok(Request::Book(BookOrder { file, wait, lines })),
        Err(fault) => Err(fault),
    }
}

// As a request, what is asked without a book.
fn plain(order: Result<Order, ArgsFault>) -> Result<Request, ArgsFault>
    ensures { result ≡ plain order }
{
    match order {
        Ok(order) => Ok(Request::Plain(order)),
        Err(fault) => Err(fault),
    }
}

// What words with options before them ask: of the file that one names, or that the environment does.
fn request_with(
    alloc: Global,
    named: Result<Option<String>, ArgsFault>,
    opted: Opted,
) -> Result<Request, ArgsFault>
    ensures { RequestWith named opted.options (opted.verb ∷ into_iter_items opted.words) result }
{
    let Opted {
        options,
        verb,
        words,
    } = opted;
    let BookOptions { file, wait } = options;
    let wait = wait.unwrap_or(0);
    match file {
        Some(file) => of_book(alloc, file, wait, verb, words),
        None => match named {
            Ok(Some(file)) => of_book(alloc, file, wait, verb, words),
            Ok(None) => Err(ArgsFault::Usage),
            Err(fault) => Err(fault),
        },
    }
}

// Whether a line may begin with this word, or a dialogue, a script with frames, or a live host: without an option it asks of the book
// that the environment names, if it names one.
fn is_of_book(word: &str) -> bool
    ensures { result ≡ is_of_book word.now }
{
    word == "shell" || word == "host" || word == "live" || begins_line(word)
}

// What words without options ask.
fn request_without(
    alloc: Global,
    named: Result<Option<String>, ArgsFault>,
    verb: String,
    words: IntoIter<String>,
) -> Result<Request, ArgsFault>
    ensures { RequestWithout named verb (into_iter_items words) result }
{
    if !is_of_book(verb.as_str()) {
        return plain(order_by_verb(verb, words));
    }
    match named {
        Ok(Some(file)) => of_book(alloc, file, 0, verb, words),
        Ok(None) => plain(order_by_verb(verb, words)),
        Err(fault) => Err(fault),
    }
}

// What the words after the program's name ask.
fn request_by(
    alloc: Global,
    named: Result<Option<String>, ArgsFault>,
    mut words: IntoIter<String>,
) -> Result<Request, ArgsFault>
    ensures { RequestBy named (into_iter_items words) result }
{
    let Some(word) = words.next() else {
        return Ok(Request::Plain(Order::RunInput));
    };
    if !is_option(word.as_str()) {
        return request_without(alloc, named, word, words);
    }
    match take_options(word, words) {
        Some(opted) => request_with(alloc, named, opted),
        None => Err(ArgsFault::Usage),
    }
}

// What the arguments ask, the program's name in front.
fn request_behind_name(
    alloc: Global,
    named: Result<Option<String>, ArgsFault>,
    mut args: IntoIter<String>,
) -> Result<Request, ArgsFault>
    ensures { RequestBy named (behind_name (into_iter_items args)) result }
{
    match args.next() {
        Some(_program) => request_by(alloc, named, args),
        None => Ok(Request::Plain(Order::RunInput)),
    }
}

/// What the arguments ask. Where they name no file for a book, and ask what there is for one, it is the file that the environment
/// names, if it names one.
///
/// # Errors
/// `Command` where they begin as a command of a script does, `NoWord` where one that spells a line for a book is no word of it,
/// `NotOfBook` where they ask of a book what there is for none, `Usage` where they are another form that `bpfcon help` does not
/// print, `BadBook` if the environment's file would count and has no name in UTF-8, `Read` where there is no memory for the words of
/// a line, and those of [`Arguments::arguments`].
pub fn request_of_args<R: Arguments + Surroundings + AllocGlobal>(
    rt: &R,
) -> Result<Request, ArgsFault>
    ensures { IsRequest (R.may_be rt.now) (R.may_name rt.now) result }
{
    let named = rt.book_named();
    match rt.arguments() {
        Ok(args) => request_behind_name(rt.alloc(), named, args),
        Err(fault) => Err(fault),
    }
}

/// What is asked without a book is what the arguments ask by themselves: a law.
pub fn a_plain_request_is_an_order()
    ensures { (args : Result (List (String Global)) ArgsFault) (named : Result (Option (String Global)) ArgsFault) (order : Order) → RequestIn named args (Ok (Request.Plain order)) → order_in args ≡ Ok order }
{}
