// The child of a node that covers a key, and the ends of what it covers.
ghost use Rattle.std.specs.Prelude.{◌≡◌, ℕ, suc, ◌≤◌};
ghost use Rattle.node.specs.Slot as s;
ghost use Rattle.tree.specs.Kids.{kid};
ghost use Rattle.tree.specs.inner.Descended.{Names, kid_after};

use node::Node;
use node::slot::{count, name};

// The child of a node that has j keys before it.
pub fn child(node: Node<'_>, j: u64) -> u64
    requires { Names node.slot × (j ≤ s.count node.slot) }
    ensures { (lo hi : ℕ) → result ≡ (kid_after node.entry.pool.now (kid node.entry.number lo hi) j).number }
{
    if j == 0 {
        return node.link();
    }
    node.value(name(node.slot, j - 1))
}

// The first key that this child covers, where the first of the node is `from`.
pub fn first_key(node: Node<'_>, j: u64, from: u64) -> u64
    requires { Names node.slot × (j ≤ s.count node.slot) }
    ensures { (hi : ℕ) → result ≡ (kid_after node.entry.pool.now (kid node.entry.number from hi) j).from }
{
    if j == 0 {
        return from;
    }
    node.key(name(node.slot, j - 1))
}

// The last key that this child covers, where the last of the node is `top`.
pub fn last_key(node: Node<'_>, j: u64, top: u64) -> u64
    requires { Names node.slot × (j ≤ s.count node.slot)
        × (1 ≤ (kid_after node.pool.now (kid node.number 0 (suc top)) j).upto) }
    ensures { (lo : ℕ) → suc result ≡ (kid_after node.entry.pool.now (kid node.entry.number lo (suc top)) j).upto }
{
    if count(node.slot) <= j {
        return top;
    }
    node.key(name(node.slot, j)) - 1
}
