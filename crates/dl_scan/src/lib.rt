// The pairs of the facts below what is asked, by interval scans of rows that carry any epochs.
#![tactic(auto)]

mod laws;
mod reading;
mod scan;
mod sieve;

pub use laws::pairs_of_shards;
pub use scan::AtomScan;
pub use sieve::Sieve;
