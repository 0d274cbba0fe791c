//! What the registers of every legal history tell. Each of these calls does nothing.
ghost use Rattle.register_laws.specs.RowLaws.{LastRowLaw, NoRowLaw, RunningLaw};

/// The last row of the register of a firm has the position of the firm after the whole history; a firm without a row has neither
/// balance nor claims.
pub fn last_row_tells_the_position()
    ensures last { LastRowLaw }
    ensures none { NoRowLaw }
{}

/// The balance of each row is that of the row before it, or 0 at the first row, plus what the row adds less what it takes.
pub fn balances_run_from_row_to_row()
    ensures { RunningLaw }
{}
