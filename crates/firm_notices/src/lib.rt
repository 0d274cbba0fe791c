//! What the bureau gives out and takes in as CSV: the notices of open claims, the positions of the firms, and invoices.
//!
//! Notices and positions are tables of a book. A row is the fields of one claim or one firm, as the default writer of
//! the `csv` crate writes them: commas between them, and a line feed behind the last. The first row has the names of
//! the fields.
//!
//! Invoices are read as the reader of that crate cuts them into rows, and become the lines of FILE requests. They have
//! one reading, or are refused with the number of the first bad row and its first cause.
#![tactic(auto)]

mod error;
mod fields;
mod firms;
mod invoice;
mod invoices;
mod open_claims;
mod rows;
mod table;

pub use claim_book::Book;
pub use error::{ImportError, RowCause};
pub use firms::positions;
pub use invoices::{filed_invoices_are_read_back, import, invoices_have_one_reading};
pub use open_claims::notices;
