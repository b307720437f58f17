// What a root holds.
use crate::Book;
use dl_row::PlainShard;
use dl_terms::List;
use std::alloc::Global;
use std::sync::Arc;

/// A book, and the shards that it speaks of. Roots share the shards that are the same in both.
#[derive(Drop)]
pub(crate) struct Held {
    pub(crate) book: Book,
    pub(crate) shards: List<Arc<PlainShard, Global>>,
}
