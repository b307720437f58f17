// Certain answers of conjunctive queries at the version that a reader has pinned, as the defined reply.
#![tactic(auto)]

mod asked;
mod broken;
mod certain;
mod kept;
mod pairs;
mod probes;
mod sizes;
mod slots;
mod uneven;

pub use asked::ask;
pub use dl_core::{Answer, AskFault};
