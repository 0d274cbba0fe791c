//! Requests, and the batches of them.
ghost use Rattle.std.specs.Prelude.{◌≡◌};

use claim_history::Act;
use setoff_model::Name;
use std::marker::Model;

/// One line that asks something of a lane.
#[derive(Drop)]
pub struct Request {
    /// The number of the line, from 1.
    pub line: u64,
    /// The lane, from 1 to `MOST_LANES`.
    pub lane: u32,
    /// Whose firms, claims, accounts and rounds the act speaks of: MAIN where the line names none.
    pub pool: Name,
    /// What is asked of the lane.
    pub act: Act,
}

/// The requests of one batch, by rising line numbers.
#[derive(Drop)]
pub struct Batch {
    requests: Vec<Request>,
}

impl Model for Batch {
    ghost use Rattle.std.specs.Prelude.{List};
    ghost use Rattle.request_text.specs.declared.request.Request.{Request};
    ghost use Rattle.request_text.specs.Batches.{AreInOrder};

    ghost Value = { List Request };

    ghost view = { λ b. b.requests.items };

    ghost invariant = { λ b. AreInOrder b.requests.items };
}

impl Batch {
    ghost use Rattle.request_text.specs.Batches.{AreInOrder};

    pub(crate) fn new(requests: Vec<Request>) -> Batch
        requires { AreInOrder requests.items }
        ensures { result ≡ requests.items }
    {
        Batch { requests }
    }

    /// The requests, by rising line numbers. Each lane is from 1 to `MOST_LANES`, each pool has a name, and each act
    /// is valid and no publication.
    pub fn requests(&self) -> &[Request]
        ensures requests { result.now ≡ self.now }
        ensures in_order { AreInOrder self.now }
    {
        &self.requests
    }
}
