// Rows: facts by the numbers of their epochs, with the versions at which they are visible; a scan of rows in order,
// whoever keeps them; and the plain shard, which is an ordered list of rows.
#![tactic(auto)]

mod laws;
mod merge;
mod row;
mod rows;
mod scan;
mod search;
mod shard;

pub use laws::rows_are_ordered;
pub use row::{Kind, OPEN, Row};
pub use rows::Rows;
pub use scan::scan_rows;
pub use shard::PlainShard;
