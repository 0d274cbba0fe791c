//! The days of a trial.

/// The day on which each drawn claim is due: 1 January 2025.
pub const DUE_DAY: u32 = 20_089;

/// The horizon of the round of a trial: 31 December 2025.
pub const HORIZON_DAY: u32 = 20_453;
