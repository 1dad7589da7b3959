//! A host's state: what a change makes of it, what a question about it answers, and the tables that keep it.
#![tactic(auto)]

pub mod ask;
pub mod change;
pub mod code;
pub mod entry;
pub mod host;
pub mod hosts;
pub mod ids;
pub mod laws;
pub mod listing;
pub mod number;
pub mod progs;
pub mod reply;
pub mod retirement;
pub mod shown;
pub mod taken_item;

pub use ask::{Ask, AskReply};
pub use change::{Change, Origin};
pub use code::Code;
pub use entry::{HostProg, MapEntry};
pub use host::Host;
pub use hosts::{
    Entries, add_entry, attr_if_live, exchange_entry, exchange_frozen, frozen_if_live, has_host,
    revive, template_at,
};
pub use ids::{holds_ids, holds_progs, named_in};
pub use listing::Listing;
pub use number::{index_of, number_of};
pub use progs::{add_prog, exchange_prog, is_live_prog};
pub use reply::{Refusal, Reply};
pub use retirement::{Retirement, none_retired, turn_retired};
pub use shown::{DeviceRow, Element, MapRow, ProgRow};
pub use taken_item::TakenItem;
