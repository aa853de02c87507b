//! The bytes that have passed through a reader, for proofs only.
ghost use Rattle.std.specs.Prelude.{◌≡◌, ℕ, List, [], ◌++◌};
ghost use Rattle.std.specs.Borrow.{ftrue};

use std::marker::{Model, PhantomData};

/// All bytes that have passed through a reader. Only contracts see them: a trace takes no memory, and its methods do
/// nothing at run time.
#[derive(Drop)]
pub struct Trace {
    marker: PhantomData<u8>,
    pub ghost bytes: { List ℕ },
}

impl Model for Trace {
    ghost also_owns = { λ _. ftrue };
}

impl Trace {
    /// An empty trace.
    pub fn new() -> Trace
        ensures { result.bytes ≡ [] }
    {
        Trace {
            marker: PhantomData,
        }
    }

    /// Appends a piece.
    pub fn add(&mut self, _piece: &[u8])
        ensures { self.new.bytes ≡ self.old.bytes ++ _piece.now }
    {}
}
