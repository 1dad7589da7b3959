//! Questions about the host's state.

use crate::listing::Listing;
use crate::shown::{DeviceRow, Element, MapRow, ProgRow};
use bt_insn::Insn;
use bt_mapkind::{Errno, MapAttr, MapReply, Query};
use bt_roots::Target;
use bt_verify::Program;
use host_words::Word;

/// A question, with its references resolved.
#[derive(Debug, Drop)]
pub enum Ask {
    /// The attributes of a map.
    Attr { id: u32 },
    /// A question to a map.
    Map { id: u32, query: Query },
    /// What is shown of every live map, or of this one (bpftool-map(8), `map show`).
    Maps { only: Option<u32> },
    /// All that a map holds (bpftool-map(8), `map dump`).
    Dump { id: u32 },
    /// What is shown of every live program, or of this one (bpftool-prog(8), `prog show`).
    Progs { only: Option<u32> },
    /// The instructions of a program (bpftool-prog(8), `prog dump xlated`).
    Code { id: u32 },
    /// What is pinned at a path.
    Pinned { path: Word },
    /// What is shown of every device to which a program is attached, or of this one (bpftool-net(8), `net show`).
    Devices { only: Option<Word> },
    /// The program that is attached to a device, to be run on a frame.
    Start { device: Word },
    /// The program at an index of a program array, to be run by a tail call (bpf-helpers(7), `bpf_tail_call`).
    Fetch { map: u32, index: u32 },
}

/// The answer to a question. It is refused with ENOENT if no such map or program is live, nothing is pinned at the
/// path, or there is no such device; and a fetch with EINVAL if the map is no program array.
#[derive(Debug, Drop)]
pub enum AskReply {
    Attr(MapAttr),
    Answered(MapReply),
    /// By ascending id.
    Maps(Listing<MapRow>),
    /// Values or ids under their keys by ascending key, or items from the oldest.
    Dump(Listing<Element>),
    /// By ascending id.
    Progs(Listing<ProgRow>),
    Code(Listing<Insn>),
    Pinned(Target),
    /// In order.
    Devices(Listing<DeviceRow>),
    /// The program with the ifindex of its device, from 1 in the order of the devices; none if no program is attached.
    Started(Option<(Program, u32)>),
    /// The program; none if the slot is empty or past the end.
    Fetched(Option<Program>),
    Refused(Errno),
}
