// What streams ask of the store and what they are told: edits and events, replies and refusals, pins, and what queries
// are answered.
#![tactic(auto)]

mod answer;
mod event;
mod pin;
mod reply;

pub use answer::{Answer, AskFault, Placed};
pub use event::{Edit, Event, Item};
pub use pin::Pin;
pub use reply::{Looked, Refusal, Reply};
