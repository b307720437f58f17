use crate::Pin;
use dl_epoch::Epochs;
use dl_terms::List;

/// What a root has beside its shards: its version, the kept epochs, the pins, and how many rows there are.
#[derive(Drop)]
pub struct Book {
    pub version: u32,
    pub epochs: Epochs,
    pub pins: List<Pin>,
    pub rows: u64,
}
