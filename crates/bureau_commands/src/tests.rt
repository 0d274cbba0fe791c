//! Tests of the top call: commands, the journal, faults and lanes.

mod commands;
mod faults;
mod histories;
mod journals;
mod lanes;
mod live;
mod parts;
mod runs;
