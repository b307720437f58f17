// What the product reads and writes: libraries of files and sinks of bytes, in memory and of the system.
#![tactic(auto)]

mod counts;
mod devices;
mod failures;
mod faulty;
mod gathering;
mod names;
mod output;
mod reached;
mod safe;
mod short;
mod system;
mod whole;
mod writing;

pub use devices::{Failed, Library, Sink};
pub use faulty::{MemoryLibrary, MemorySink};
pub use gathering::{GATHERED, GatheringSink};
pub use names::names_differ;
pub use output::OutSink;
pub use safe::{SafeLibrary, SafeSink};
pub use short::{ShortLibrary, ShortSink};
pub use system::FileLibrary;
pub use whole::{FileFault, MAX_BYTES, read_whole};
pub use writing::write_all;
