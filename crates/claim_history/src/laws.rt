//! What holds of every legal history, of the entries of one pool or of all. Each of these calls does nothing.
ghost use Rattle.claim_history.specs.Laws.{ActsLaw, CutLaw, OneCutLaw, OpenLaw, NoneOpenLaw, LimitsLaw, FormulasLaw};
ghost use Rattle.claim_history.specs.Laws.{SizesLaw, RepliesLaw, FrozenLaw, PublicationLaw, GreatestLaw, OpeningsLaw};
ghost use Rattle.claim_history.specs.PoolLaws.{PoolsLaw, JoinLaw, ReplayLaw, MainLaw, OwnedLaw};
ghost use Rattle.claim_history.specs.PoolNeeds.{RoomLaw, EndingsLaw, RecordsLaw, UseLaw, CallsLaw};
ghost use Rattle.claim_history.specs.PoolNeeds.{ReserveLaw, NeedsLaw, FullLaw, UseBoundLaw};
ghost use Rattle.claim_history.specs.PoolRounds.{CutsLaw, CutBoundLaw, EndedLaw};
ghost use Rattle.claim_history.specs.Register.{FullRegister};
ghost use Rattle.claim_history.specs.Touched.{TouchLaw};

/// What a history comes to is that of its entries: its acts are the accepted ones, newest first, and its open round has
/// the cut of the entries before its opening. As many rounds were opened as entries open one.
pub fn state_is_of_the_history()
    ensures acts { ActsLaw }
    ensures cut { CutLaw }
    ensures openings { OpeningsLaw }
{}

/// A round has one cut: that of the entries before its opening, which stays the same however long the history grows.
pub fn each_round_has_one_cut()
    ensures { OneCutLaw }
{}

/// A round is open from its opening until a publication or an Abandon is accepted: exactly where none comes later. So
/// no round is open exactly where one comes behind each opening.
pub fn round_is_open_until_its_end()
    ensures open { OpenLaw }
    ensures none { NoneOpenLaw }
{}

/// After every legal history each account is within its limits, of no claim is more received and discharged than its
/// amount, and no part that is agreed to is above the open amount. Where the acts are valid too, every balance is within
/// 10^15 cents of zero, and nobody is owed or owes more than 262,144 amounts of 999,999,999,999 cents, so the replies are
/// in range. The limits, the windows of a cut, and the tests of the refusals that speak of them, are the formulas that
/// they are named for.
pub fn limits_hold()
    ensures limits { LimitsLaw }
    ensures sizes { SizesLaw }
    ensures formulas { FormulasLaw }
    ensures replies { RepliesLaw }
{}

/// A firm that no later entry touches keeps its account and its position. An accepted act touches the firms that it names, by
/// themselves or by a claim of theirs, and a publication any.
pub fn untouched_firms_stay()
    ensures { TouchLaw }
{}

/// While a round is open, each claim of its cut is confirmed with the cut's amount as its part, and each window of its
/// cut is today's.
pub fn open_cut_is_frozen()
    ensures { FrozenLaw }
{}

/// A publication keeps every firm's receivable less its payable plus its balance.
pub fn publication_keeps_net_positions()
    ensures { PublicationLaw }
{}

/// The prices of each published entry prove its discharges for the cut of its round, and so no lawful set-off of that
/// cut discharges more.
pub fn publications_are_greatest()
    ensures { GreatestLaw }
{}

/// The entries of each pool of a legal history of the bureau are a legal history, so all laws here of the entries of one pool hold
/// of them. It stays legal with one more member that may stand next, and then no other pool changes. Calls, replayed, are such a
/// history, and entries of the pool MAIN alone are one exactly where they are a legal history.
pub fn each_pool_has_its_history()
    ensures pools { PoolsLaw }
    ensures join { JoinLaw }
    ensures replay { ReplayLaw }
    ensures main { MainLaw }
{}

/// After an accepted CLOSE its round stays open with its cut as long as neither its owner nor the bureau itself asks anything in
/// its pool, whatever is asked in other pools.
pub fn owned_round_stays_open()
    ensures { OwnedLaw }
{}

/// In a legal history, where each call was within the limits when it was asked, there is room for both endings of each open round:
/// for two entries, and for the bytes of its publication and of an abandonment. So none of them is above a limit where it would
/// be accepted. These bytes are those of the two records.
pub fn room_for_endings_is_kept()
    ensures room { RoomLaw }
    ensures endings { EndingsLaw }
    ensures records { RecordsLaw }
{}

/// With each member a history uses one entry more, unless its reply tells of a device, and the bytes of its record where it is
/// accepted. What is reserved changes by the open round of its pool alone, and the history stays within the limits where the call
/// is. A list of calls uses an entry for each, and a record for each where all are accepted. A call needs what is used and
/// reserved, its own, and in place of the open round of its pool the one that is open there afterwards. It is full exactly where
/// one of its two needs is above its limit.
pub fn use_is_counted()
    // What a history uses and reserves.
    ensures growth { UseLaw }
    ensures calls { CallsLaw }
    ensures reserve { ReserveLaw }

    // What a call needs, and where it is full.
    ensures needs { NeedsLaw }
    ensures full { FullLaw }
{}

/// The calls bound what a history uses, whatever their replies: an entry for each, and the bytes of their records. They bound the
/// cut of each round of each pool too: it has at most as many claims as calls of all pools file one, and as many parties as calls
/// of all pools register a firm.
pub fn calls_bound_use_and_cuts()
    ensures use_of_calls { UseBoundLaw }
    ensures cut { CutBoundLaw }
{}

/// One more member adds the cut of the round that it publishes in its pool, in the order of the publications of all pools.
pub fn published_cuts_are_in_order()
    ensures { CutsLaw }
{}

/// A history that leaves rounds open, one in a pool at most, leaves none open with the bureau's own abandonments of them. An
/// abandonment ends no round but that of its own pool, so each of them finds its round open, in whatever order they come.
pub fn rounds_left_open_are_ended()
    ensures { EndedLaw }
{}

/// Where 262,143 claims were filed, two registered firms may file one more, and where 262,144 were, the next one is
/// refused: a new key since the register is full, and one that was filed since it was filed.
pub fn full_register_refuses_claims()
    ensures { FullRegister }
{}
