//! What holds of the summaries of every history. Each of these calls does nothing.
ghost use Rattle.journal_summaries.specs.SummaryLaws.{BalanceLaw, SealLaw};

/// After each accepted entry the balance of a firm is the one before, plus what a register tells that the entry adds, less what it
/// tells that the entry takes.
pub fn balances_run_by_rows()
    ensures { BalanceLaw }
{}

/// Two journals whose first acts are the same are sealed by the same line. That no two others are is no clause, but the known property
/// of SHA-256.
pub fn same_acts_have_one_seal()
    ensures { SealLaw }
{}
