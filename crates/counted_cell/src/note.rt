//! A number that is there for clauses only.
ghost use Rattle.std.specs.Prelude.{◌≡◌, ℕ};
ghost use base.Fml.{ftrue};

use std::marker::{Model, PhantomData};

/// A number that only clauses read. It takes no space and owns nothing, so that only clauses tie it to what is beside it.
#[derive(Drop)]
pub struct Note {
    mark: PhantomData<()>,
    pub ghost number: { ℕ },
}

impl Model for Note {
    ghost also_owns = { λ _. ftrue };
}

unsafe impl Send for Note {}

unsafe impl Sync for Note {}

impl Note {
    /// The note of this number.
    pub(crate) fn new(number: u64) -> Note
        ensures { result.number ≡ number }
    {
        let _ = number;
        Note { mark: PhantomData }
    }
}
