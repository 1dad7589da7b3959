//! Queues and stacks (Documentation/bpf/map_queue_stack.rst): a ring of items, of which a queue pops the oldest and a
//! stack the newest.
#![tactic(auto)]

pub mod queue;
mod ring;
mod ring_kind;
pub mod stack;

pub use queue::QueueKind;
pub use stack::StackKind;
