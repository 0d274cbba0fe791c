//! The lines of a text, and the fields of a line.
//!
//! A line ends at a line feed, and a carriage return directly before that is no byte of it. What follows the last line
//! feed is a line where it is not empty. The fields of a line are its pieces between single spaces: two spaces in a row
//! have an empty field between them, and an empty line has one field, which is empty.
//!
//! `next_line` and `fields_of` cut. Two laws say that what is written is cut again: `joined_fields_are_cut_again`,
//! since no name and no number has a space in it, and `ended_lines_are_lines`, since none has a line feed or a carriage
//! return.
#![tactic(auto)]

ghost use Rattle.text_lines.specs.Fields.{JoinLaw, NoSpaceLaw, VisibleLaw, EndedLaw};

mod fields;
mod lines;

pub use fields::fields_of;
pub use lines::next_line;

/// Fields without spaces that are joined by single spaces are cut into the same fields again; names and numbers are
/// such fields.
pub fn joined_fields_are_cut_again()
    ensures law { JoinLaw }
    ensures no_space { NoSpaceLaw }
{}

/// The texts of values are visible: each byte is above a space. A line of visible fields that is ended by a line feed
/// is the first line of the text. A law, which does nothing when it is called.
pub fn ended_lines_are_lines()
    ensures visible { VisibleLaw }
    ensures ended { EndedLaw }
{}
