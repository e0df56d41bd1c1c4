//! The octets that a writer took. They stand in proofs alone: at run time there is nothing of them.
ghost use Rattle.std.specs.Prelude.{◌≡◌, ◌++◌, ℕ, List, []};
ghost use Rattle.std.specs.Borrow.{ftrue};

use std::marker::{Model, PhantomData};

/// All octets that a writer took, one after another. Only clauses read them, as `octets`.
#[derive(Drop)]
pub struct Taken {
    of: PhantomData<u8>,
    pub ghost octets: { List ℕ },
}

impl Model for Taken {
    ghost also_owns = { λ _. ftrue };
}

impl Taken {
    /// Makes one of no octets.
    pub fn new() -> Taken
        ensures { result.octets ≡ [] }
    {
        Taken { of: PhantomData }
    }

    /// Notes that these octets were taken too.
    pub fn note(&mut self, _octets: &[u8])
        ensures { self.new.octets ≡ self.old.octets ++ _octets.now }
    {}
}
