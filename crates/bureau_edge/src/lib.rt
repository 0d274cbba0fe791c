//! Where the bureau's bytes come from and go to, and the count of the faults on the way.
//!
//! A `Source` is read to its end, a `Sink` is written. Each may tell its bytes: those that are left, or those that it has taken.
//! Each counts its faults, and a call fails only where that count rises in it, or stands at its last value. So who answers that
//! a read or a write failed shows by the count that the device did, and code that is generic over the device cannot make it up.
//!
//! - `SureSource`, `BytesSource` and `BytesSink` are in memory and tell their bytes. The last two fail at the calls that they are
//!   told to fail at.
//! - `StandardIn` and `StandardOut` are the streams of the process, by the runtime's reader and writer. A call that a signal
//!   interrupts is made again, up to 64 calls in all. The output is flushed in each call, and tells no bytes: what a flush that
//!   failed has left is not known.
//! - `read_whole` reads all that is left, up to a limit. `write_all` writes a whole piece, or a front of it where it fails.
#![tactic(auto)]

mod bytes_sink;
mod bytes_source;
mod failed;
mod interrupts;
mod sink;
mod source;
mod standard_in;
mod standard_out;
mod sure_source;
mod whole;

pub use bytes_sink::BytesSink;
pub use bytes_source::BytesSource;
pub use failed::Failed;
pub use sink::{Sink, write_all};
pub use source::Source;
pub use standard_in::StandardIn;
pub use standard_out::StandardOut;
pub use sure_source::SureSource;
pub use whole::{ReadEnd, read_whole};
