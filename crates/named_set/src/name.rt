//! The name of a set, for types to speak of.

ghost use Rattle.std.specs.Prelude.{◌≡◌, IfErr, IfOk};
ghost use Rattle.named_set.specs.Names.{usual_set_bits};
ghost use Rattle.text_forms.specs.declared.faults.Fault.TheVariants.{Memory};

use crate::index_key::IndexKey;
use counted_cell::CellLog;
use std::alloc::Global;
use std::marker::{Brand, Model};
use text_forms::word::Buckets;
use text_forms::{Fault, SipKey};

/// The bits of the usual number of buckets.
const USUAL_BITS: u8 = 8;

/// Which set it is, by the names of its buckets' logs. Whoever calls a function that is generic over it picks them.
pub trait SetName {
    ghost use Rattle.std.specs.Prelude.{ℕ, List};

    ghost logs: { List ℕ };
}

/// What a caller of a function that is generic over it writes for the name.
impl SetName for Brand {
    ghost use Rattle.std.specs.Prelude.{[]};

    ghost logs = { [] };
}

/// A name that no set has, for a set of some number of buckets. The set that is made with it spends it, so that it is the name's only
/// one. In a clause it is the names of its logs, and the bits of their number.
#[derive(Drop)]
pub struct FreshName {
    pub(crate) logs: Vec<CellLog>,
    pub(crate) count: Buckets,
    pub(crate) key: IndexKey,
}

impl Model for FreshName {
    ghost use Rattle.std.specs.Prelude.{◌≡◌, ◌^◌, map, vec_len};
    ghost use Rattle.std.specs.List.{AllByRecursion};
    ghost use Rattle.named_set.specs.Names.{Fresh, IsEmpty};

    ghost Value = { Fresh };

    ghost view = { λ f. record { logs = map (λ l. l.name) f.logs.items; bits = f.count } };

    ghost invariant = { λ f. (vec_len f.logs ≡ 2 ^ f.count) × AllByRecursion IsEmpty f.logs.items };
}

impl FreshName {
    /// A name that no set has, for one of 256 buckets. Each bucket has a lock of its own, and finds a text in a time that doesn't grow with the
    /// number of texts, so more are of use to more threads alone: 1,024 to many. It is refused for `Memory` alone.
    pub fn usual(alloc: Global) -> Result<FreshName, Fault>
        ensures bits { IfOk result (λ name. name.bits ≡ usual_set_bits) }
        ensures refused { IfErr result (λ fault. fault ≡ Memory) }
    {
        match Buckets::new(USUAL_BITS) {
            Some(buckets) => FreshName::new(alloc, buckets),
            None => unreachable!(),
        }
    }

    /// A name that no set has, for one of this many buckets. It is refused for `Memory` alone.
    #[tactic(auto, using(crate::proofs::Rows::each_snoc))]
    pub fn new(alloc: Global, buckets: Buckets) -> Result<FreshName, Fault>
        ensures bits { IfOk result (λ name. name.bits ≡ buckets) }
        ensures refused { IfErr result (λ fault. fault ≡ Memory) }
    {
        let mut logs = Vec::with_capacity(alloc, buckets.number())?;
        for _ in 0..buckets.number() {
            logs.push(CellLog::new())?;
        }
        Ok(FreshName {
            logs,
            count: buckets,
            key: IndexKey::open(),
        })
    }

    /// The same name, whose set finds its texts under this key: those who don't know it can't choose texts which slow the set down, except by
    /// chance. Without a key a set finds them under none, which is for texts that no outsider picks.
    pub fn under(self, key: SipKey) -> FreshName
        ensures { result ≡ self }
    {
        FreshName {
            key: IndexKey::of(key),
            ..self
        }
    }
}
