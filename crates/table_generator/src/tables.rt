//! Static tables that own their texts, and the errors of making them.

ghost use Rattle.std.specs.Prelude.{◌≡◌};

use std::alloc::{AllocError, AllocFailed};
use std::fmt;
use thiserror::Error;

/// Static tables that own their texts: what a `PhfStrSet` lends.
#[derive(Drop)]
pub struct Tables {
    /// The key of the hash.
    pub key: u64,
    /// The pairs of displacements.
    pub disps: Vec<(u32, u32)>,
    /// The texts.
    pub atoms: Vec<String>,
    /// The number that an atom of each text hashes as.
    pub hashes: Vec<u64>,
}

/// The errors of making tables.
#[derive(Clone, Copy, Debug, PartialEq, Eq, Error)]
pub enum GenFault {
    /// No text was given.
    #[error("no texts")]
    EmptyList,
    /// A text has a line feed.
    #[error("text with a line feed")]
    LineFeed,
    /// Two texts are equal.
    #[error("text listed twice")]
    Doubled,
    /// No displacements below the bound were found that place all texts.
    #[error("no tables within the bound")]
    NotPlaced,
    /// A request for memory was refused.
    #[error("no memory")]
    Memory,
}

impl From<AllocError> for GenFault {
    ghost use Rattle.table_generator.specs.declared.tables.GenFault.TheVariants.{Memory};

    ghost from_gives = { λ _ fault. fault ≡ Memory };

    fn from(_: AllocError) -> GenFault {
        GenFault::Memory
    }
}

impl<T: Drop> From<AllocFailed<T>> for GenFault {
    ghost use Rattle.table_generator.specs.declared.tables.GenFault.TheVariants.{Memory};

    ghost from_gives = { λ _ fault. fault ≡ Memory };

    fn from(_: AllocFailed<T>) -> GenFault {
        GenFault::Memory
    }
}
/// A line for the key, one for each pair of displacements, and one for each text, with its hash number in 16 digits.
impl fmt::Display for Tables {
    ghost use Rattle.std.specs.Prelude.{Some};
    ghost use Rattle.table_generator.specs.Generated.{tables_of};
    ghost use Rattle.table_generator.specs.TableText.{table_text};

    ghost output = { λ tables. Some (table_text (tables_of tables)) };

    fn fmt<W: fmt::Write>(&self, f: &mut fmt::Formatter<W>) -> fmt::Result {
        writeln!(f, "key {}", self.key)?;
        for (d1, d2) in &self.disps {
            writeln!(f, "disp {d1} {d2}")?;
        }
        for (i, hash) in self.hashes.iter().enumerate() {
            if let Some(text) = self.atoms.get(i) {
                writeln!(f, "atom {hash:016x} {text}")?;
            }
        }
        Ok(())
    }
}
