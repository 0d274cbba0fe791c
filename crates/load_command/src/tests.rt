//! Tests of loads: requests that are read, lines that are served in groups, calls that are kept so, and the order of output and disk.

mod commands;
mod loads;
mod made;
mod order;
mod programs;
mod reading;
mod runs;
