// A node looked at whole, in one pass over the entries that it names: whether it is good, and where a key stands in it.
ghost use Rattle.std.specs.Prelude.{◌≡◌, true, ltb, leb, eqb, if◌then◌else◌};
ghost use Rattle.node.specs.Lists.{upto};
ghost use Rattle.node.specs.View as v;
ghost use Rattle.node.specs.inner.Said.{said};
ghost use Rattle.node.specs.inner.Looked as l;
ghost use Rattle.node.specs.inner.Looked.{Looked, Placed, end_of};

use crate::cover::{Cover, Look};
use crate::layout::Node;
use crate::slot::{count, name};

// Key x may come after j others: the first is not below `low`, and each later one above it.
fn follows(j: u64, low: u64, x: u64) -> bool
    ensures { result ≡ (if eqb j 0 then leb low x else ltb low x) }
{
    if j == 0 { low <= x } else { low < x }
}

// The last of j rising keys is below the cover's upper end, and so all are.
fn ends(cover: Cover, j: u64, last: u64) -> bool
    ensures { result ≡ l.ends (end_of cover) j last }
{
    cover.hi.is_none_or(|hi| j == 0 || last < hi)
}

impl Node<'_> {
    // The node looked at for a key: nothing of one that is not good, which is left at the first fault. Names whose keys rise are all
    // different.
    pub fn look(self, least: u64, from: u64, key: u64) -> Option<Look>
        ensures { Looked least from key (said self.entry) result }
    {
        let n = count(self.slot);
        if n == 0 {
            return (least == 0).then_some(Look {
                after: 0,
                last: from,
            });
        }
        if n < least || Node::ENTRIES < n {
            return None;
        }
        let mut rest = self.slot >> 8;
        let mut last = from;
        let mut after: u64 = 0;
        for j in 0..n {
            let e = rest & 0xff;
            if Node::ENTRIES <= e {
                return None;
            }
            let x = self.key(e);
            if !follows(j, last, x) {
                return None;
            }
            after += (x <= key) as u64;
            last = x;
            rest >>= 8;
        }
        Some(Look { after, last })
    }

    // Whether the node is good. The key that it is looked at for plays no part.
    pub fn fits(self, least: u64, cover: Cover) -> bool
        ensures { result ≡ v.good least cover.lo (end_of cover) (said self.entry) }
    {
        self.look(least, cover.lo, 0)
            .is_some_and(|seen| ends(cover, count(self.slot), seen.last))
    }

    // The rank of a key in the node, which is sound and of whose keys so many are not above it: Ok where the key is there, as the last of
    // them, and Err where it would stand after them.
    pub fn place(self, after: u64, key: u64) -> Result<u64, u64>
        requires sound { v.sound 0 (said self) ≡ true }
        requires after_value { after ≡ upto key (v.keys (said self).records) }
        ensures { Placed key (said self.entry) result }
    {
        if after == 0 {
            return Err(0);
        }
        if self.key(name(self.slot, after - 1)) != key {
            return Err(after);
        }
        Ok(after - 1)
    }
}
