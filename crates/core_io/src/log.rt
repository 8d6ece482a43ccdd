// What reads gave and what writes took, in order.
ghost use Rattle.std.specs.Prelude.{◌≡◌, List, [], ◌∷◌, ◌++◌};
ghost use Rattle.std.specs.Borrow.{ftrue};
ghost use Rattle.core_io.specs.Passed.{Passed, passed};

use std::marker::{Model, PhantomData};

/// The pieces that passed. It takes no memory and does nothing at run time: only proofs read it.
#[derive(Drop)]
pub struct Log {
    of: PhantomData<u8>,
    pub ghost pieces: { List Passed },
}

impl Model for Log {
    ghost also_owns = { λ _. ftrue };
}

impl Log {
    /// Nothing has passed.
    pub(crate) fn new() -> Log
        ensures { result.pieces ≡ [] }
    {
        Log { of: PhantomData }
    }

    /// The first `_count` bytes of the room have passed, of this name from place `_at` on.
    pub(crate) fn add(&mut self, _name: &[u8], _at: u64, _room: &[u8], _count: usize)
        ensures { self.new.pieces ≡ self.old.pieces
            ++ passed _name.now _at _room.now _count ∷ [] }
    {}
}
