//! What is left of a whole call.

/// What a call ends with: the status of the process, and the source, the sink and the disk as they are then.
#[derive(Drop)]
pub struct Ended<S, K, D> {
    pub status: u8,
    pub source: S,
    pub sink: K,
    pub disk: D,
}
