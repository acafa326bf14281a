//! Takes the items of a chain one after another.

ghost use Rattle.std.specs.Prelude.{◌≡◌, ◌∷◌, IfNone, IfSome};

use node_chain::NodeChain;

/// Takes out and returns the next item, if one is left.
pub fn take_next(chain: &mut NodeChain<u64>) -> Option<u64>
    ensures taken { IfSome result (λ item. chain.old.left ≡ item ∷ chain.new.left) }
    ensures none { IfNone result (chain.new ≡ chain.old) }
{
    if chain.remaining() == 0 {
        return None;
    }
    Some(chain.take_out())
}
