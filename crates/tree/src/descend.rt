// The way down from the root to the leaf of a key, each node on it looked at once: all of refusal 4 but its last case.
ghost use Rattle.std.specs.Prelude.{◌≡◌, ◌≤◌, suc, true};
ghost use Rattle.words.specs.Tests.{within};
ghost use Rattle.words.specs.declared.refusal.Refusal.TheVariants.{Damaged};
ghost use Rattle.node.specs.Slot as s;
ghost use Rattle.tree.specs.Header.{form_agrees, counts_agree};
ghost use Rattle.tree.specs.Kids.{kid};
ghost use Rattle.tree.specs.inner.Descended.{Names, kid_after, Met, Child, Descended};

use crate::child::{child, first_key, last_key};
use crate::header::counts_agree;
use node::{Look, Node};
use words::{Pool, Refusal};

// The leaf of a key, its slot word, and the key's rank in it: Ok where the key is there, Err where it is not.
#[derive(Drop)]
pub struct Seat {
    pub leaf: u64,
    pub slot: u64,
    pub place: Result<u64, u64>,
}

// The node at fault, 0 for the header.
#[derive(Clone, Copy)]
pub struct Fault {
    pub node: u64,
}

impl From<Fault> for Refusal {
    ghost from_gives = { λ _ r. r ≡ Damaged };

    fn from(_fault: Fault) -> Refusal {
        Refusal::Damaged
    }
}

// Whether a number is that of a node in use.
fn in_use(used: u64, node: u64) -> bool
    ensures { result ≡ within 1 node used }
{
    (1..=used).contains(&node)
}

// A node on the way down: its number and its parent's, 0 for none, and the keys that it covers, both ends among them.
#[derive(Clone, Copy)]
pub struct Step {
    pub node: u64,
    pub parent: u64,
    pub from: u64,
    pub top: u64,
}

impl Step {
    // The node looked at for a key, if nothing is wrong with it.
    fn meet(self, pool: &[u64], least: u64, key: u64) -> Result<(Node<'_>, Look), Fault>
        requires { (form_agrees pool.now ≡ true) × (counts_agree pool.now ≡ true) × (self.from ≤ self.top) }
        ensures { Met pool.now self least key result }
    {
        if !in_use(pool[Pool::USED_AT as usize], self.node) {
            return Err(Fault { node: self.parent });
        }
        let node = Node::at(pool, self.node);
        let fault = Fault { node: self.node };
        let seen = node.look(least, self.from, key).ok_or(fault)?;
        if self.top < seen.last {
            return Err(fault);
        }
        Ok((node, seen))
    }

    // The child that has so many keys before it.
    fn down(self, node: Node<'_>, after: u64) -> Step
        requires { Names node.slot × (after ≤ s.count node.slot)
            × (1 ≤ (kid_after node.pool.now (kid node.number 0 (suc self.top)) after).upto) }
        ensures { Child node.entry.pool.now (kid node.entry.number self.from (suc self.top)) after result }
    {
        Step {
            node: child(node, after),
            parent: node.number,
            from: first_key(node, after, self.from),
            top: last_key(node, after, self.top),
        }
    }
}

// The way down to the leaf of a key, which each node on it covers.
pub fn descend(pool: &[u64], key: u64) -> Result<Seat, Fault>
    requires { form_agrees pool.now ≡ true }
    ensures { Descended pool.now key result }
{
    if !counts_agree(pool) {
        return Err(Fault { node: 0 });
    }
    // The root's cover has no ends.
    let mut step = Step {
        node: pool[Pool::ROOT_AT as usize],
        parent: 0,
        from: 0,
        top: u64::MAX,
    };
    for left in (0..pool[Pool::HEIGHT_AT as usize]).rev() {
        let (node, seen) = step.meet(pool, (0 < left) as u64, key)?;
        if left == 0 {
            return Ok(Seat {
                leaf: node.number,
                slot: node.slot,
                place: node.place(seen.after, key),
            });
        }
        step = step.down(node, seen.after);
    }
    unreachable!()
}
