use dl_row::Row;
use dl_terms::List;

/// What a stream is told.
#[derive(Drop)]
pub enum Reply {
    /// The new version, and the id of the epoch that is then current.
    Committed { version: u32, epoch: u32 },
    Pinned { version: u32 },
    Unpinned { version: u32 },
    /// How many rows moved, and how many of all shards carry another epoch than the current one.
    Migrated { moved: u64, left: u64 },
    /// How many rows were dropped, and how many of that shard may still be.
    Swept { dropped: u64, left: u64 },
    /// The ids of the epochs that were dropped, ascending.
    Reclaimed { ids: List<u32> },
    Looked(Looked),
    /// Nothing changed.
    Refused(Refusal),
}

/// Why an event is refused.
#[derive(Clone, Copy, PartialEq, Eq)]
pub enum Refusal {
    /// The axioms after the commit weigh more than 65,536.
    TooManyAxioms { weight: u64 },
    /// The signature and the auxiliary roles after the commit are more than 4,096.
    TooManyPredicates { count: u64 },
    /// The commit would open an epoch, and 64 are kept.
    TooManyEpochs { kept: u32 },
    /// The kept rows and the new ones are more than 4,194,304.
    Full { kept: u64, new: u64 },
    /// The stream has a pin, at this version.
    PinOpen { version: u32 },
    /// The stream has no pin.
    NoPin,
    /// There is no shard with this number.
    NoShard { shard: u32 },
}

/// What a look shows of the current version.
#[derive(Drop)]
pub struct Looked {
    pub version: u32,
    /// The id of the current epoch.
    pub epoch: u32,
    /// How many epochs are kept.
    pub epochs: u32,
    /// How many rows are kept.
    pub kept: u64,
    /// How many of them are visible at the current version.
    pub visible: u64,
    /// How many of them carry another epoch.
    pub behind: u64,
    /// The classes of the current epoch, by number.
    pub classes: List<u32>,
    /// Its roles, by number.
    pub roles: List<u32>,
    /// The first visible rows, in row order over all shards.
    pub rows: List<Row>,
}
