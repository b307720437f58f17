use dl_terms::{Axiom, Fact, List};

/// What an edit adds or removes. A class or a property is declared.
#[derive(Drop)]
pub enum Item {
    Axiom(Axiom),
    Fact(Fact),
    Class(u32),
    Property(u32),
}

/// An item that is added, or one that is removed.
#[derive(Drop)]
pub struct Edit {
    pub add: bool,
    pub item: Item,
}

/// What a stream asks of the store.
#[derive(Drop)]
pub enum Event {
    /// The edits, in order, make the next version.
    Commit(List<Edit>),
    /// The stream is to read the current version from now on.
    Pin,
    /// The stream's pin is taken off.
    Unpin,
    /// So many rows of a shard are to get the numbers of the current epoch.
    Migrate { shard: u32, n: u64 },
    /// So many rows of a shard are to be dropped that no live version sees.
    Sweep { shard: u32, n: u64 },
    /// The epochs that nothing needs any more are to be dropped.
    Reclaim,
    /// Counts, the names by number, and so many of the first visible rows.
    Look { rows: u64 },
}
