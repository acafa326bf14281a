//! What C lends to a call that only reads: a table that nobody writes in the meantime, or nothing.

ghost use Rattle.std.specs.Prelude.{◌≡◌, ◌↔◌, ℕ, None, Some, Option, IsSome, IsTrue, MatchOption};
ghost use Rattle.string_cache_c.specs.Loan.{loan_has};
ghost use Rattle.string_cache_c.specs.Seat.{seat_coded};
ghost use Rattle.string_cache_c.specs.declared.numbered_table.NumberedTable.{NumberedTable};

use crate::numbered_table::NumberedTable;
use std::marker::Model;

/// A pointer to a table that is shared for the lifetime `life`, or nothing. Any number of loans may have one table at a time.
#[repr(C)]
#[derive(Drop)]
pub struct Loan {
    at: *mut u8,
    pub ghost life: { ℕ },
    pub ghost value: { Option NumberedTable } by { seat_coded },
}

impl Model for Loan {
    ghost also_owns = { λ l. loan_has l.life l.at l.value };
}

impl Loan {
    /// The table of a loan that has one.
    pub fn table(&self) -> &NumberedTable
        requires { IsSome self.now.value }
        ensures { self.now.value ≡ Some result.now }
    {
        unsafe { &*(self.at as *const NumberedTable) }
    }
}

/// A handle as C lends it: a copy of its bytes, with a loan of its table or none. A call that has only this changes neither the handle nor the table.
#[repr(C)]
#[derive(Drop)]
pub struct ScLent {
    pub loan: Loan,
    full: bool,
    ghost same: { IsTrue full ↔ IsSome loan.value },
}

impl ScLent {
    /// The table, if there is one.
    pub fn table(&self) -> Option<&NumberedTable>
        ensures { MatchOption result (self.now.loan.value ≡ None) (λ numbered. self.now.loan.value ≡ Some numbered.now) }
    {
        if self.full {
            Some(self.loan.table())
        } else {
            None
        }
    }
}

unsafe impl Send for Loan {}
