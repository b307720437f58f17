// An epoch among others.
use crate::Epoch;
use std::alloc::Global;
use std::sync::Arc;

/// An epoch, the first version that it covers, and how many rows carry it.
#[derive(Drop)]
pub struct Entry {
    pub epoch: Arc<Epoch, Global>,
    pub first: u32,
    pub rows: u64,
}
