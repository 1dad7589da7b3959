//! The commands, as the help of a dialogue lists them and tells what each answers.

use console_operand::first_word;

/// The commands of a script, a line each: its form, and after `: ` what it answers.
const COMMANDS: &str =
    "map show|list [MAP]: a line `ID: TYPE name NAME flags 0xH key KB value VB max_entries N` for each live map, or for this one, with ` frozen` if it is
map create FILE type TYPE value NUM entries NUM name NAME [key NUM] [flags NUM] [inner_map MAP]: `ok S id N`; pinned at FILE
map dump MAP: `key: BYTES value: BYTES` for each entry by ascending key, `key: BYTES value: id N` for each id in a map of ids, or `value: BYTES` for each item from the oldest; then `found N elements`
map update MAP [key DATA] value VALUE [any|exist|noexist]: `ok S`; without a key it pushes an item
map lookup MAP [key DATA]: `key: BYTES value: BYTES`, `key: BYTES value: id N` in a map of ids, or `not found`; without a key as `peek`
map getnext MAP [key DATA]: `next key: BYTES`, or `no next key`; without a key, and with an absent one, the first key
map delete MAP key DATA: `ok S`
map peek MAP: `value: BYTES`, the item that a pop would take
map push|enqueue MAP value VALUE: `ok S`
map pop|dequeue MAP: `ok S value: BYTES`
map freeze MAP: `ok S`; from then on the console may not write the map
map pin MAP FILE: `ok S`
prog show|list [PROG]: a line `ID: xdp name NAME insns N` for each live program, or for this one, then ` map_ids A,B` in ascending order if it names maps; a wide instruction counts once
prog dump xlated PROG: a line `SLOT: BYTES` for each instruction, of 8 or 16 bytes
prog load OBJ FILE: `ok S id N`; the program is pinned at FILE, and named by what follows the last `/`, cut to 15 bytes
prog pin PROG FILE: `ok S`
net show|list [dev NAME]: a line `NAME(IFINDEX) id N` for each device to which a program is attached, in the order of the devices, or for this one
net attach xdp PROG dev NAME [overwrite]: `ok S`; in place of another program only with `overwrite`
net detach xdp dev NAME: `ok S`; what was reachable by this device alone retires
unpin FILE: `ok S`; what was reachable by this pin alone retires
batch file FILE: the answers of the lines of FILE, up to the first one that is refused, then `processed N commands`, of which N were accepted. Those before the refused one stay in effect, each a change of its own. In a batch this command is `nested batch`
frame dev NAME hex:DIGITS: `ACTION N`, what the program at the device decides: `XDP_ABORTED 0`, `XDP_DROP 1`, `XDP_PASS 2`, `XDP_TX 3` or `XDP_REDIRECT 4`; `XDP_ABORTED 0 REASON` if it was aborted; `XDP_PASS 2 no program` at a device without one
run start dev NAME hex:DIGITS: `run R`: a run of the program at the device, which waits before its first instruction
run step NUM: `run R access` when the run did its next access of a map, or `run R` and how it ended, as for a frame; a run that ended is gone
journal mark NAME: `marked NAME`
journal undo [NAME]: `undone N`: N moments were taken back, without a name the last one. The mark stays, later marks are gone
journal redo: `redone 1`: the first of the moments that were undone is back; marks do not come back. A new change or taking out gives up what was undone
journal forget NAME: `forgot NAME`: the journal begins at the mark now; the moments up to it and the marks before it are gone for good
journal list: a line `S WHO CHANGE` for each change in force, the oldest first, then a line `mark NAME N` for each mark in the order of making, with the number of moments in force at it; what is undone or taken out is not listed
journal without NUM: `ok S`: the change of serial NUM is taken out, and those after it stay, each under its serial
";

/// The lines of a dialogue and of a live host that only look into the journal, likewise.
const LOOKS: &str =
    "journal show NUM: the row of the change of serial NUM in `journal list`, its place, and what stood there `before:` and `after:` it, as it was made; `none` where nothing stood. `Error: not in force` if no change in force has the serial, or where the journal begins if that is after it
journal undo -n [NAME]: nothing; standard error tells what the undo would take back
";

/// The lines that only a live host has, likewise.
const LIVE_COMMANDS: &str =
    "workers show: `workers N running`, `resting` when all passes are done, or `stopped`; `frames N`, the number served; a line `ACTION N` for each action that some of them got, such as `XDP_PASS 3485`, then `aborted N`, `no program N`, `no device N` and `no memory N`, each if it is not 0; `moments N of M`; and `rate N`, frames a second since the last `workers show`
workers stop: `workers N stopped`, once each has ended the frame that it had
workers go: `workers N running`: they continue where they stopped
workers wait: waits until all passes are done, and then does what `workers stop` does; without `--repeat` it is `Error: no end`
journal try NAME SECONDS: `trying NAME`: marks NAME as `journal mark` does, and undoes to it by itself after SECONDS, 1 to 86,400, unless the try is confirmed before; `Error: try pending` while another is tried
journal confirm NAME: `confirmed NAME`: what came after the mark stays, and the mark too; `Error: no try` if none of this name is pending
";

/// What the words of forms stand for, and how to go on.
const WORDS: &str =
    "MAP and PROG are `id NUM`, `pinned FILE` or `name NAME`; DATA is bytes, as `10 0 0 1`, or `hex` and bytes, as `hex 0a 0 0 1`
VALUE is DATA, or MAP or PROG in a map of ids; OBJ is `hex:` and digits, or the path of a file that has the bytes of a program
`help COMMAND`, as `help map update`, tells what a command answers; `quit` leaves
";

// Whether a form begins with the words of a line; of words such as `show|list` each is one.
fn begins_so(form: &str, asked: &[u8]) -> bool {
    let mut asked = asked;
    for part in form.split_whitespace() {
        let Some((word, rest)) = first_word(asked) else {
            return true;
        };
        if !part.split('|').any(|choice| choice.as_bytes() == word) {
            return false;
        }
        asked = rest;
    }
    first_word(asked).is_none()
}

// Lists the forms of commands.
fn list<R: Eprint>(rt: &R, commands: &str) {
    for command in commands.lines() {
        if let Some((form, _)) = command.split_once(": ") {
            let _ = eprintln!(rt; "{form}");
        }
    }
}

// Tells what each of the commands answers whose form begins with the words of a line, and whether there is one.
fn tell<R: Eprint>(rt: &R, commands: &str, asked: &[u8]) -> bool {
    let mut found = false;
    for command in commands.lines() {
        if let Some((form, answer)) = command.split_once(": ") {
            if begins_so(form, asked) {
                let _ = eprintln!(rt; "{form}\n    {answer}");
                found = true;
            }
        }
    }
    found
}

// Lists all commands, of a live host its own too.
fn list_all<R: Eprint>(rt: &R, is_live: bool) {
    list(rt, COMMANDS);
    list(rt, LOOKS);
    if is_live {
        list(rt, LIVE_COMMANDS);
    }
    let _ = rt.eprint(WORDS);
}

// Tells of the commands whose forms begin so, of a live host its own too.
fn tell_all<R: Eprint>(rt: &R, asked: &[u8], is_live: bool) {
    let found = tell(rt, COMMANDS, asked);
    let found_look = tell(rt, LOOKS, asked);
    let found_live = is_live && tell(rt, LIVE_COMMANDS, asked);
    if !found && !found_look && !found_live {
        let _ = rt.eprintln("no command begins so; `help` lists all");
    }
}

/// Writes on standard error the help for which a line of a dialogue asks: after its first word, the words with which a command
/// begins, or none for a list of all. Writing it changes nothing of the host.
pub fn show_help<R: Eprint>(rt: &R, line: &[u8], is_live: bool) {
    let asked = match first_word(line) {
        Some((_, behind)) => behind,
        None => line,
    };
    match first_word(asked) {
        Some(_) => tell_all(rt, asked, is_live),
        None => list_all(rt, is_live),
    }
}
