// What the lines so far say, and where the next one stands.
use crate::streams::Command;
use dl_event::Edit;
use dl_terms::List;

/// The stream that is open, behind those before it.
#[derive(Drop)]
pub(crate) struct Open {
    /// The streams before it.
    pub before: List<List<Command>>,
    /// Its commands so far.
    pub commands: List<Command>,
    /// How many commands there are so far, in all streams.
    pub count: u64,
}

/// Where a line stands.
#[derive(Drop)]
pub(crate) enum Place {
    /// Before the first stream.
    Outside,
    /// In a stream.
    InStream(Open),
    /// In a commit of a stream: the line at which it begins, and its edits so far.
    InCommit {
        stream: Open,
        at: u64,
        made: List<Edit>,
    },
}
