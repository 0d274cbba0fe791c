//! What was asked and replied.
ghost use Rattle.std.specs.Prelude.{◌≡◌};
ghost use Rattle.claim_history.specs.History.{is_accepted};
ghost use Rattle.claim_history.specs.Needs.{is_of_device};

use crate::act::Act;
use crate::fact::Position;

/// Why an act is refused. The refusals have the numbers 1 to 20 in this order.
#[derive(Clone, Copy, PartialEq, Eq, Debug)]
pub enum Why {
    /// The firm is registered.
    FirmExists,
    /// 16,384 firms are registered.
    FirmsFull,
    /// A named firm is not registered.
    UnknownFirm,
    /// Debtor and creditor are one name.
    SameFirm,
    /// The key was filed before.
    ClaimExists,
    /// 262,144 claims were filed.
    ClaimsFull,
    /// The key was never filed.
    UnknownClaim,
    /// The named debtor is not the claim's.
    NotDebtor,
    /// The claim's status is one in which the act has no place.
    WrongState,
    /// The open round holds the claim in its cut or, where it is Funded, the firm among its parties.
    Frozen { round: u32 },
    /// The amount is above the claim's open amount.
    OverOpen,
    /// The balance and the amount together are above the ceiling.
    OverCeiling,
    /// The balance less the amount is below zero by more than the credit.
    BelowFloor,
    /// The balance is not within the new limits.
    LimitsExcludeBalance,
    /// A round is open, and this Close does not continue it.
    RoundOpen { round: u32 },
    /// No round is open, or none of the number that is named.
    NoRound,
    /// The open round has another owner.
    NotOwner { round: u32 },
    /// The act would be accepted, and the device failed: its count of faults stood at the first number before, and at
    /// the second after.
    Device { before: u64, after: u64 },
    /// The prices do not prove the discharges for the cut of the round.
    NotProved,
    /// The amount that is agreed to is above the claim's filed amount.
    OverAmount,
}

/// What the bureau replies to an act.
#[derive(Clone, Copy, PartialEq, Eq, Debug)]
pub enum Reply {
    /// The act is accepted.
    Done,
    /// The act is accepted, and this is the firm's position.
    Position(Position),
    /// The round of this number was opened.
    Opened { round: u32 },
    /// The open round, of this number, goes on with its cut.
    Continued { round: u32 },
    /// The open round was published, and this is the sum of its discharges, in cents.
    Published { total: u64 },
    /// The open round, of this number, was abandoned.
    Abandoned { round: u32 },
    /// The act is refused and changes nothing.
    Refused(Why),
}

/// One entry of the history: what was asked, by which caller, and the reply.
#[derive(Clone)]
pub struct Entry {
    /// Who asked: the number of a lane, or 0 for the bureau itself.
    pub caller: u32,
    /// What was asked.
    pub act: Act,
    /// What the bureau replied.
    pub reply: Reply,
}

// Written out, so that it is proved once, and not in each crate that lets an entry go.
impl Drop for Entry {
    fn drop(self) {
        let Self { caller, act, reply } = self;
    }
}

/// Whether an entry is accepted: its reply is no refusal.
pub fn accepted(entry: &Entry) -> bool
    ensures { result ≡ is_accepted entry.now }
{
    !matches!(&entry.reply, Reply::Refused(_))
}

/// Whether a reply tells of the device, which failed at an act that would be accepted.
pub fn tells_of_device(reply: &Reply) -> bool
    ensures { result ≡ is_of_device reply.now }
{
    matches!(reply, Reply::Refused(Why::Device { .. }))
}
