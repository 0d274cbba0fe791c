//! What is asked of the bureau, and what stands in its history.
ghost use Rattle.std.specs.Prelude.{◌≡◌, ◌≤◌};
ghost use Rattle.claim_history.specs.declared.record_bytes.TheConstants.{POOL_BYTES};
ghost use Rattle.claim_history.specs.Pools.{is_main as names_main, main_pool};
ghost use Rattle.claim_history.specs.PoolNeeds.{pool_bytes as bytes_of};

use crate::act::Act;
use crate::entry::Entry;
use setoff_model::Name;

/// What is asked: by whom, and in which pool. Firms, claims, accounts and rounds of different pools have nothing to do with
/// each other.
#[derive(Drop)]
pub struct Call {
    /// Who asks: the number of a lane, or 0 for the bureau itself.
    pub caller: u32,
    /// Whose firms, claims, accounts and rounds the act speaks of.
    pub pool: Name,
    /// What is asked.
    pub act: Act,
}

/// One member of the history of the bureau: an entry of a pool.
#[derive(Clone, Drop)]
pub struct PoolEntry {
    /// Whose firms, claims, accounts and rounds the entry speaks of.
    pub pool: Name,
    /// What was asked and replied.
    pub entry: Entry,
}

/// The pool MAIN, which is that of each act that names none.
pub fn main_pool_name() -> Name
    ensures { result ≡ main_pool }
{
    match Name::of(b"MAIN") {
        Some(name) => name,
        None => unreachable!(),
    }
}

/// Whether a pool is MAIN.
pub fn is_main(pool: &Name) -> bool
    ensures { result ≡ names_main pool.now }
{
    pool.bytes() == b"MAIN".as_slice()
}

/// How many bytes name a pool in a record: none for MAIN.
pub fn pool_bytes(pool: &Name) -> u64
    ensures bytes { result ≡ bytes_of pool.now }
    ensures few { result ≤ POOL_BYTES }
{
    if is_main(pool) {
        return 0;
    }
    2 + pool.bytes().len() as u64
}
