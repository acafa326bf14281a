//! The names of the program's sets.

ghost use Rattle.std.specs.Prelude.{◌≡◌, IfErr};
ghost use Rattle.text_forms.specs.declared.faults.Fault.TheVariants.{Memory};

use std::alloc::Global;
use std::hash::{BuildHasher, RandomState};
use string_cache::word::Buckets;
use string_cache::{Fault, FreshName, SipKey};

/// The number of buckets, each with a lock of its own, for the words of a text with this number of bytes: few for a small one, so that the set is
/// made quickly.
pub fn buckets_for(bytes: usize) -> Buckets {
    let bits = match bytes {
        0..0x1000 => 6,
        0x1000..0x1_0000 => 8,
        _ => 10,
    };
    Buckets::new(bits).unwrap_or(Buckets::usual())
}

/// A name that no set has, for the words of a text with this number of bytes. Its set finds them under a key that is made of these.
/// It is refused for `Memory` alone.
pub fn name_under(alloc: Global, keys: RandomState, bytes: usize) -> Result<FreshName, Fault>
    ensures { IfErr result (λ fault. fault ≡ Memory) }
{
    let name = FreshName::new(alloc, buckets_for(bytes))?;
    let key = SipKey::new(keys.hash_one(0u64), keys.hash_one(1u64));
    Ok(name.under(key))
}
