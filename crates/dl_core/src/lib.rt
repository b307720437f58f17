// The core of the store: edits, events and their replies, pins, and the book of a root; with what a history says of its
// versions, and the next root of each event.
#![tactic(auto)]

mod book;
mod changes;
mod commit;
mod committed;
mod committed_shard;
mod copies;
mod fault;
mod first_root;
mod found;
mod held;
mod limits;
mod loaded_shards;
mod look;
mod maintain;
mod new_rows;
mod next_root;
mod ontology;
mod opening;
mod pins;
mod reads;
mod reclaim;
mod refilled;
mod root;
mod root_reads;

pub use book::Book;
pub use dl_event::{Answer, AskFault, Edit, Event, Item, Looked, Pin, Placed, Refusal, Reply};
pub use fault::LoadFault;
pub use first_root::{MAX_ROWS, load};
pub use next_root::step;
pub use reads::Reads;
pub use root::Root;
pub use root_reads::RootReads;
