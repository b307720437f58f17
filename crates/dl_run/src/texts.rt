// The texts that the program prints in place of an output.

/// The written forms of the words.
pub const USAGE: &str = "usage: quest answer ONTOLOGY DATA QUERY [--limit N]
       quest run ONTOLOGY DATA STREAMS [--shards N]
       quest gen NUMBER SIZE
";

/// The words have a form that isn't built yet.
pub const NOT_BUILT: &str = "refused: not built\n";

/// A file could not be read.
pub const READ_FAULT: &str = "read fault\n";

/// There was no memory.
pub const NO_MEMORY: &str = "no memory\n";
