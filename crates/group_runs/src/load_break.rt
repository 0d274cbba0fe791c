//! Why a load ended before its last group.

use group_loader::LoadStopped;

/// Why a load ended before its last group, with the disk that was handed in.
#[derive(Drop)]
pub enum LoadBreak<D> {
    /// The sink failed at the text of a group, which is kept.
    Sink {
        /// The disk.
        disk: D,
    },
    /// The disk failed at a group, of which nothing was told.
    Disk(LoadStopped<D>),
}
