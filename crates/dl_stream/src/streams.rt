use dl_event::Event;
use dl_terms::{List, Query};

/// What a stream does next.
#[derive(Drop)]
pub enum Command {
    /// An event is put to the store.
    Put(Event),
    /// A query is asked, with at most so many answers.
    Ask { query: Query, limit: u64 },
}

/// The streams of a stream file, in order: the commands of each.
#[derive(Drop)]
pub struct Streams {
    pub lists: List<List<Command>>,
}
