//! A list that proofs alone read.
ghost use Rattle.std.specs.Prelude.{◌≡◌, List, [], ◌∷◌, ◌++◌};
ghost use Rattle.std.specs.Borrow.{ftrue};

use std::marker::{Model, PhantomData};

/// What clauses read of it is `items`. It takes no memory and owns nothing.
#[derive(Drop)]
pub struct ProofList<T> {
    marker: PhantomData<T>,
    pub ghost items: { List T },
}

impl<T> Model for ProofList<T> {
    ghost also_owns = { λ _. ftrue };
}

impl<T> ProofList<T> {
    /// The list of nothing.
    pub fn none() -> ProofList<T>
        ensures { result.items ≡ [] }
    {
        ProofList {
            marker: PhantomData,
        }
    }

    /// The list with one item more, as it is now.
    pub fn and(&self, item: &T) -> ProofList<T>
        ensures { result.items ≡ self.now.items ++ item.now ∷ [] }
    {
        ProofList {
            marker: PhantomData,
        }
    }
}
