//! A journal of acts on a disk: after a crash the records are there, all but perhaps the last, or the last group.
//!
//! A file begins with the eight bytes `BUREAUJ2`, or `BUREAUJ1` where it was made before there were pools, and keeps its
//! header. Then come records: a gate byte, a length of four bytes, big-endian, and a body. After the last record comes
//! the gate of the next one. A gate is open exactly where it is 1, and anything may follow a gate that is not. The bytes
//! stand for the bodies of the records behind open gates, in order. A body is the bytes of an act with its pool and the
//! number of its caller, under either header.
//!
//! An append writes the record and a closed gate behind it, syncs, opens the record's gate, and syncs. So no crash
//! leaves an open gate before bytes that were not synced. An append that failed once it may have begun to open its gate
//! leaves that gate unsettled, and the next append closes it first, with a write and a sync of their own.
//!
//! A group of records is appended in the same four calls: its records are written behind the closed gate of the first, with open
//! gates between them and a closed one behind the last. So a crash leaves all of them or none, and whoever reads the journal sees
//! records as any others. An append of one record is that of a group of one.
//!
//! An opening syncs, asks for the length, and reads all bytes. Where at most nine bytes stand for no journal it makes
//! one with no records, and otherwise it writes nothing. `read_records` reads the same records and never writes.
//!
//! What a journal keeps is said by `IsKept`, of any list of bodies: a caller that knows the records of the opening and
//! its own appends knows what each crash leaves. What is said of bytes holds where the disk tells them. Of a disk that
//! does not, the counts of faults are known, and that the places and lengths of the records fit one another.
#![tactic(auto)]

mod cause;
mod device;
mod empty;
mod group;
mod journal;
mod laws;
mod log;
mod open_refused;
mod opening;
mod reading;
mod record;
mod scan;
mod stop;
mod whole;
mod written;

pub use act_bodies::{body_length, encode};
pub use cause::{JournalCause, RecordWhy};
pub use device::Device;
pub use disk_model::Disk;
pub use group::Group;
pub use journal::Journal;
pub use laws::{bytes_hold_one_list, what_is_kept_stands};
pub use open_refused::OpenRefused;
pub use reading::read_records;
pub use record::Record;
