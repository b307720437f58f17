/// The version that a stream reads.
#[derive(Clone, Copy, PartialEq, Eq)]
pub struct Pin {
    pub stream: u32,
    pub version: u32,
}
