//! A history with its claims and accounts.
ghost use Rattle.std.specs.Prelude.{ℕ, ◌≡◌, ◌<◌, ◌+◌, ◌≤◌, ◌++◌, ◌∷◌, [], length, is_some, IfOk, IfErr};
ghost use Rattle.std.specs.Prelude.{OnOk, OnErr, vec_len, vec_capacity, true, false, All, if◌then◌else◌};
ghost use Rattle.std.specs.Option.{option_map};
ghost use Rattle.setoff_model.specs.declared.limits.TheConstants.{MOST_ROUNDS};
ghost use Rattle.setoff_model.specs.declared.kind.Kind.{Kind};
ghost use Rattle.setoff_model.specs.CutView.{WellFormed};
ghost use Rattle.round_cut.specs.claim_history.specs.declared.act.Act.TheVariants as act;
ghost use Rattle.round_cut.specs.claim_history.specs.Facts.{claim_facts, account_facts};
ghost use Rattle.round_cut.specs.claim_history.specs.Cut.{cut_of};
ghost use Rattle.round_cut.specs.claim_history.specs.States.{state_of, number_of, is_in_cut, is_held};
ghost use Rattle.round_cut.specs.claim_history.specs.History.{answer_of, IsLegalPool, AreValidEntries, MayFollowInPool, is_opening};
ghost use Rattle.round_cut.specs.claim_history.specs.Acts.{is_valid, is_publication};
ghost use Rattle.round_cut.specs.claim_history.specs.Laws.{KeepLimits, KeepAmounts, IsWithin, OpenIsFrozen};
ghost use Rattle.fact_tables.specs.Marks.{no_marks};
ghost use Rattle.claim_book.specs.Book.{is_abandoned, ledger_of, claim_in, account_in, position_in};
ghost use Rattle.claim_book.specs.Book.{room_for, room_needed, KeepsRoom, open_cut_of, GivesCut};

use crate::account_answer::{
    answer_draw, answer_firm, answer_fund, answer_limit, answer_offer, answer_position,
};
use crate::claim_answer::{
    answer_confirm, answer_dispute, answer_file, answer_receive, answer_withdraw,
};
use crate::round::{
    KeptRound, end_round, horizon_of, is_funded_round, keep_round, outcome_in, take_cut,
};
use crate::round_answer::{answer_abandon, answer_close};
use fact_tables::{AccountTable, ClaimTable};
use round_cut::{
    AccountFact, Act, ClaimFact, Day, Entry, Position, Reply, accepted, build_cut,
    cut_of_a_history_is_of_its_facts,
};
use setoff_model::{Cut, Key, Kind, Name};
use std::alloc::{AllocError, Global};
use std::marker::Model;

/// The history in order of time, with each claim, each account and the open round as the history has them.
///
/// The history is legal and each of its acts is valid. Beside it stands the room: how many entries may be applied
/// without taking memory.
#[derive(Drop)]
pub struct Book {
    entries: Vec<Entry>,
    claims: ClaimTable,
    accounts: AccountTable,
    openings: u32,
    kept: Option<KeptRound>,
}

impl Model for Book {
    ghost use Rattle.std.specs.Prelude.{◌-◌, min, vec_len, vec_capacity};
    ghost use Rattle.claim_book.specs.Book.{BookView, IsBook};

    ghost Value = { BookView };

    ghost view = { λ b. record {
      history = b.entries.items;
      room = min (vec_capacity b.entries - vec_len b.entries)
          (min b.claims.room b.accounts.room);
    } };

    ghost invariant = { λ b. IsBook (record {
      entries = b.entries.items;
      claims = b.claims.facts;
      claim_marks = b.claims.marks;
      accounts = b.accounts.facts;
      account_marks = b.accounts.marks;
      openings = b.openings;
      round = b.kept;
    }) };
}

impl Book {
    /// A book without entries. It takes no memory.
    pub fn new(alloc: Global) -> Book
        ensures history { result.history ≡ [] }
        ensures room { result.room ≡ 0 }
    {
        Book {
            entries: Vec::new(alloc),
            claims: ClaimTable::new(alloc),
            accounts: AccountTable::new(alloc),
            openings: 0,
            kept: None,
        }
    }

    /// Makes the room that one entry of this act needs and, where a round is open or the act is a Close, the room of one
    /// publication beside it. It lowers no room that was made before.
    ///
    /// The only error is that memory is missing. It comes only where there was less room, and leaves the history as before.
    pub fn reserve(&mut self, act: &Act) -> Result<(), AllocError>
        ensures history { self.new.history ≡ self.old.history }
        ensures room { OnOk result (room_for (state_of self.old.history) act.now ≤ self.new.room) }
        ensures kept { self.old.room ≤ self.new.room }
        ensures needed { OnErr result (self.old.room < room_for (state_of self.old.history) act.now) }
    {
        self.make_room(self.room_for(act))
    }

    // Makes room for so many entries, where there was less. The only error is that memory is missing.
    pub(crate) fn make_room(&mut self, entries: usize) -> Result<(), AllocError>
        ensures history { self.new.history ≡ self.old.history }
        ensures room { OnOk result (entries ≤ self.new.room) }
        ensures kept { self.old.room ≤ self.new.room }
        ensures needed { OnErr result (self.old.room < entries) }
    {
        self.claims.reserve(entries)?;
        self.accounts.reserve(entries)?;
        self.entries.reserve(entries)
    }

    // For how many entries an act needs room.
    pub(crate) fn room_for(&self, act: &Act) -> usize
        ensures { result ≡ room_for (state_of self.now.history) act.now }
    {
        match act {
            Act::Close { .. } => 2,
            _ if self.kept.is_some() => 2,
            _ => 1,
        }
    }

    /// The one reply of the history to a caller and an act. It takes no memory.
    ///
    /// The refusals of the act's verb are tried in their order, and the first that applies is the reply. The act is no
    /// publication, and fewer than 2^32 - 1 rounds were opened.
    pub fn answer(&self, caller: u32, act: &Act) -> Reply
        requires apart { is_publication act.now ≡ false }
        requires few { (state_of self.now.history).openings < MOST_ROUNDS }
        ensures { result ≡ answer_of self.now.history caller act.now }
    {
        match act {
            Act::Firm { firm } => answer_firm(self, firm),
            Act::File { key, debtor, .. } => answer_file(self, key, debtor),
            Act::Confirm {
                key,
                debtor,
                agreed,
            } => answer_confirm(self, key, debtor, *agreed),
            Act::Dispute { key, debtor } => answer_dispute(self, key, debtor),
            Act::Withdraw { key } => answer_withdraw(self, key),
            Act::Receive { key, amount } => answer_receive(self, key, *amount),
            Act::Fund { firm, amount } => answer_fund(self, firm, *amount),
            Act::Draw { firm, amount } => answer_draw(self, firm, *amount),
            Act::Limit {
                firm,
                credit,
                ceiling,
            } => answer_limit(self, firm, *credit, *ceiling),
            Act::Offer { firm, .. } => answer_offer(self, firm),
            Act::Position { firm } => answer_position(self, firm),
            Act::Close { kind, horizon } => {
                answer_close(self.openings, &self.kept, caller, *kind, horizon)
            }
            Act::Abandon => answer_abandon(&self.kept, caller),
            Act::Publish { .. } => unreachable!(),
        }
    }

    // Whether a claim is in the cut of the open round.
    pub(crate) fn is_frozen(&self, key: &Key) -> bool
        ensures { result ≡ is_in_cut (state_of self.now.history).open_round key.now }
    {
        self.claims.is_marked(key)
    }

    // Whether the open round holds the account of a firm.
    pub(crate) fn is_held(&self, firm: &Name) -> bool
        ensures { result ≡ is_held (state_of self.now.history).open_round firm.now }
    {
        is_funded_round(&self.kept) && self.accounts.is_marked(firm)
    }

    // The number of the open round, 0 where none is open.
    pub(crate) fn open_number(&self) -> u32
        ensures { result ≡ number_of (state_of self.now.history).open_round }
    {
        match &self.kept {
            None => 0,
            Some(round) => round.cut.round(),
        }
    }

    /// Puts an entry at the end that publishes nothing and opens no round. There is room for it, its act is valid, and it may
    /// stand next: its reply is that of the history, or tells of a device that failed where the act would be accepted. It takes
    /// no memory. Where a round is open, the room for its publication stays.
    pub fn apply(&mut self, entry: Entry)
        // There is room for the entry, and its act is valid.
        requires room { room_for (state_of self.old.history) entry.act ≤ self.old.room }
        requires valid { is_valid entry.act ≡ true }

        // It publishes nothing, opens no round, and may stand next.
        requires apart { is_publication entry.act ≡ false }
        requires no_opening { is_opening entry.reply ≡ false }
        requires next { MayFollowInPool self.old.history entry }

        // The history with the entry, and the room that is left.
        ensures history { self.new.history ≡ self.old.history ++ entry ∷ [] }
        ensures room { self.old.room ≤ self.new.room + 1 }
        ensures kept { KeepsRoom self.old.history entry self.new.room }
    {
        // The check of the calls below wants the act's type to be named here.
        let _act: &Act = &entry.act;
        self.claims.apply(&entry);
        self.accounts.apply(&entry);
        end_round(&mut self.kept, entry.reply);
        unmark_ended(&mut self.claims, &mut self.accounts, entry.reply);
        put_entry(&mut self.entries, entry);
    }

    /// Puts the entry of a Close at the end that opens a round, and keeps the cut of the round, which is that of the history so
    /// far. The rest is as for `apply`.
    pub fn apply_close(&mut self, entry: Entry, cut: Cut)
        // There is room for the entry, its act is valid, and one round more may be opened.
        requires room { room_for (state_of self.old.history) entry.act ≤ self.old.room }
        requires valid { is_valid entry.act ≡ true }
        requires few { (state_of self.old.history).openings < MOST_ROUNDS }

        // It opens a round and may stand next, and this is the cut of the round.
        requires opens { is_opening entry.reply ≡ true }
        requires next { MayFollowInPool self.old.history entry }
        requires cut { (kind : Kind) (horizon : ℕ) → entry.act ≡ act.Close kind horizon
            → cut ≡ cut_of ((state_of self.old.history).openings + 1) (ledger_of self.old.history) kind horizon }

        // The history with the entry, and the room that is left.
        ensures history { self.new.history ≡ self.old.history ++ entry ∷ [] }
        ensures room { self.old.room ≤ self.new.room + 1 }
        ensures kept { KeepsRoom self.old.history entry self.new.room }
    {
        let horizon = horizon_of(&entry.act);
        let owner = entry.caller;
        self.claims.mark(&cut);
        self.accounts.mark(&cut);
        let round = KeptRound {
            owner,
            horizon,
            cut,
        };
        keep_round(&mut self.kept, round);
        self.openings += 1;
        put_entry(&mut self.entries, entry);
    }

    /// Puts the entry of a publication at the end. Where it is accepted, claims and accounts are changed by its discharges, the
    /// round is no longer open, and its cut is given; else None. Its act is valid, and it may stand next, as for `apply`. It takes
    /// no memory.
    ///
    /// There is room for it, as for `apply`, or it is the publication of the open round by its owner, for which room was kept.
    pub fn apply_publish(&mut self, entry: Entry) -> Option<Cut>
        requires room { room_needed (state_of self.old.history) entry.caller entry.act ≤ self.old.room }
        requires valid { is_valid entry.act ≡ true }
        requires publishes { is_publication entry.act ≡ true }
        requires next { MayFollowInPool self.old.history entry }

        // The history with the entry, the room that is left, and the cut of a published round.
        ensures history { self.new.history ≡ self.old.history ++ entry ∷ [] }
        ensures room { self.old.room ≤ self.new.room + 1 }
        ensures kept { KeepsRoom self.old.history entry self.new.room }
        ensures cut { GivesCut (state_of self.old.history).open_round entry result }
    {
        if !accepted(&entry) {
            put_entry(&mut self.entries, entry);
            return None;
        }
        let cut = take_cut(&mut self.kept);
        let discharges = outcome_in(&entry.act).discharges();
        self.claims.discharge(&cut, discharges);
        self.accounts.discharge(&cut, discharges);
        self.claims.unmark();
        self.accounts.unmark();
        put_entry(&mut self.entries, entry);
        Some(cut)
    }

    /// The cut of the round that a Close of this kind and horizon opens now. It has the number of the next round. Fewer than
    /// 2^32 - 1 rounds were opened. The only error is that memory is missing.
    pub fn next_cut(&self, alloc: Global, kind: Kind, horizon: Day) -> Result<Cut, AllocError>
        requires { (state_of self.now.history).openings < MOST_ROUNDS }
        ensures cut { IfOk result (λ cut. cut ≡ cut_of ((state_of self.now.history).openings + 1)
            (ledger_of self.now.history) kind horizon) }
        ensures formed { IfOk result WellFormed }
    {
        cut_of_a_history_is_of_its_facts();
        let round = self.openings + 1;
        build_cut(alloc, self.claims(), self.accounts(), kind, horizon, round)
    }

    /// A copy of the cut of the open round; None exactly where no round is open. The only error is that memory is missing, and
    /// it comes only where a round is open.
    pub fn open_cut(&self, alloc: Global) -> Result<Option<Cut>, AllocError>
        ensures cut { IfOk result (λ cut. cut ≡ open_cut_of self.now.history) }
        ensures open { IfErr result (λ _. is_some (state_of self.now.history).open_round ≡ true) }
    {
        let _ = alloc;
        match &self.kept {
            None => Ok(None),
            Some(round) => Ok(Some(round.cut.clone()?)),
        }
    }

    /// The cut of the open round; None exactly where no round is open. It takes no memory.
    pub fn kept_cut(&self) -> Option<&Cut>
        ensures { option_map (λ cut. cut.now) result ≡ open_cut_of self.now.history }
    {
        match &self.kept {
            None => None,
            Some(round) => Some(&round.cut),
        }
    }

    /// The number of the open round; None exactly where no round is open. It takes no memory.
    pub fn open_round(&self) -> Option<u32>
        ensures { result ≡ option_map (λ round. round.cut.round) (state_of self.now.history).open_round }
    {
        match &self.kept {
            None => None,
            Some(round) => Some(round.cut.round()),
        }
    }

    /// The caller that owns the open round; None exactly where no round is open. It takes no memory.
    pub fn owner(&self) -> Option<u32>
        ensures { result ≡ option_map (λ round. round.owner) (state_of self.now.history).open_round }
    {
        match &self.kept {
            None => None,
            Some(round) => Some(round.owner),
        }
    }

    /// The entries in order of time. It takes no memory.
    ///
    /// The history is legal, each of its acts is valid, every account is within its limits, no claim is received on and
    /// discharged above its amount nor its part above what is open, and the cut of the open round is frozen. No more rounds were
    /// opened than there are entries.
    pub fn history(&self) -> &[Entry]
        // The entries, which are a legal history of valid acts.
        ensures entries { result.now ≡ self.now.history }
        ensures legal { IsLegalPool self.now.history }
        ensures valid { AreValidEntries self.now.history }

        // What holds of the accounts, the claims and the rounds of this history.
        ensures limits { KeepLimits (ledger_of self.now.history) }
        ensures amounts { KeepAmounts (ledger_of self.now.history) }
        ensures frozen { OpenIsFrozen (state_of self.now.history) }
        ensures openings { (state_of self.now.history).openings ≤ length self.now.history }
    {
        &self.entries
    }

    /// Each filed claim, in order of filing. No open amount is above the amount as filed, and no part above the open amount. It
    /// takes no memory.
    ///
    /// They are those of a legal history of valid acts.
    pub fn claims(&self) -> &[ClaimFact]
        // The claims, and what holds of their amounts.
        ensures claims { result.now ≡ claim_facts (ledger_of self.now.history) }
        ensures amounts { All (λ c. c.left ≤ c.amount) result.now }
        ensures parts { All (λ c. c.part ≤ c.left) result.now }

        // The history is legal, and its acts are valid.
        ensures legal { IsLegalPool self.now.history }
        ensures valid { AreValidEntries self.now.history }
    {
        self.claims.facts()
    }

    /// The account of each registered firm, in order of registration. Each balance is within its limits. It takes no memory.
    pub fn accounts(&self) -> &[AccountFact]
        ensures accounts { result.now ≡ account_facts (ledger_of self.now.history) }
        ensures limits { All (λ a. IsWithin a.credit a.ceiling a.balance) result.now }
    {
        self.accounts.facts()
    }

    /// The claim of this key; None exactly where the key was never filed. It takes no memory.
    pub fn claim(&self, key: &Key) -> Option<ClaimFact>
        ensures { result ≡ claim_in (ledger_of self.now.history) key.now }
    {
        self.claims.find(key)
    }

    /// The account of this firm; None exactly where the firm is not registered. It takes no memory.
    pub fn account(&self, firm: Name) -> Option<AccountFact>
        ensures { result ≡ account_in (ledger_of self.now.history) firm }
    {
        self.accounts.find(&firm)
    }

    /// The position of this firm; None exactly where the firm is not registered. It takes no memory.
    pub fn position(&self, firm: Name) -> Option<Position>
        ensures { result ≡ position_in (ledger_of self.now.history) firm }
    {
        match self.account(firm) {
            None => None,
            Some(account) => Some(Position {
                balance: account.balance,
                receivable: self.claims.owed_to(&firm),
                payable: self.claims.owed_by(&firm),
            }),
        }
    }
}

// Takes all marks off where a reply abandons the open round.
fn unmark_ended(claims: &mut ClaimTable, accounts: &mut AccountTable, reply: Reply)
    // Of the claims no more than the marks may change.
    ensures claims { claims.new.facts ≡ claims.old.facts }
    ensures claim_marks { claims.new.marks ≡ (if is_abandoned reply then no_marks claims.old.facts else claims.old.marks) }
    ensures claim_room { claims.new.room ≡ claims.old.room }

    // Of the accounts no more than the marks may change.
    ensures accounts { accounts.new.facts ≡ accounts.old.facts }
    ensures account_marks { accounts.new.marks ≡ (if is_abandoned reply then no_marks accounts.old.facts else accounts.old.marks) }
    ensures account_room { accounts.new.room ≡ accounts.old.room }
{
    if matches!(reply, Reply::Abandoned { .. }) {
        claims.unmark();
        accounts.unmark();
    }
}

// Puts an entry at the end of those that there is room for.
fn put_entry(entries: &mut Vec<Entry>, entry: Entry)
    requires { vec_len entries.old < vec_capacity entries.old }
    ensures items { entries.new.items ≡ entries.old.items ++ entry ∷ [] }
    ensures len { vec_len entries.new ≡ vec_len entries.old + 1 }
    ensures capacity { vec_capacity entries.old ≤ vec_capacity entries.new }
{
    entries.push_reserved(entry);
}
