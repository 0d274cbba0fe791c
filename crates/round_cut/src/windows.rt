//! The window of an account.
ghost use Rattle.std.specs.Prelude.{◌≡◌};
ghost use Rattle.round_cut.specs.Windows.{KeepsLimits, window_of};

use claim_history::AccountFact;
use setoff_model::Kind;

/// By how many cents the balance of an account may fall in a round, and by how many it may rise.
///
/// In a plain round both are 0. In a funded round the balance may fall by what the firm offers, as far as balance and
/// credit reach, and rise up to the ceiling. It takes no memory.
pub fn window(account: &AccountFact, kind: Kind) -> (u64, u64)
    requires { KeepsLimits account.now }
    ensures spend { result.0 ≡ (window_of kind account.now).spend }
    ensures room { result.1 ≡ (window_of kind account.now).room }
{
    match kind {
        Kind::Plain => (0, 0),
        Kind::Funded => (spend(account), room(account)),
    }
}

// What the firm offers, as far as balance and credit reach.
fn spend(account: &AccountFact) -> u64
    requires { KeepsLimits account.now }
    ensures { result ≡ (window_of Kind.Funded account.now).spend }
{
    let reach = account.balance + account.credit as i64;
    account.offer.min(reach as u64)
}

// What is left up to the ceiling.
fn room(account: &AccountFact) -> u64
    requires { KeepsLimits account.now }
    ensures { result ≡ (window_of Kind.Funded account.now).room }
{
    (account.ceiling as i64 - account.balance) as u64
}
