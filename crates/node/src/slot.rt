// Slot words: a count in the lowest byte, and above it a byte for each name. A word of names is a slot word without its count.
ghost use Rattle.std.specs.Prelude.{◌≡◌, ◌≤◌, ◌<◌, get_or};
ghost use Rattle.words.specs.Lists.{count_from};
ghost use Rattle.node.specs.Lists.{insert, remove};
ghost use Rattle.node.specs.Slot as s;

use crate::bytes::{byte_at, insert_byte, low_bytes, remove_byte};
use crate::layout::Node;
use crate::marks::{marked, marks_of};

pub fn count(w: u64) -> u64
    ensures { result ≡ s.count w }
{
    w & 0xff
}

// The entry named in place i.
pub fn name(w: u64, i: u64) -> u64
    requires { (i < s.count w) × (s.count w ≤ s.entries) }
    ensures { result ≡ get_or (s.names w) i 0 }
{
    byte_at(w, i + 1)
}

// The slot word of the lowest n of a word of names.
pub fn slot_of(names: u64, n: u64) -> u64
    requires { n ≤ s.entries }
    ensures { result ≡ s.slot (s.bytes n names) }
{
    (low_bytes(names, n) << 8) | n
}

// w with entry e named too, at the rank.
pub fn with_name(w: u64, rank: u64, e: u64) -> u64
    requires { (s.count w < s.entries) × (rank ≤ s.count w) × (e < s.byte) }
    ensures { result ≡ s.slot (insert rank e (s.names w)) }
{
    let names = insert_byte(w >> 8, rank, e);
    slot_of(names, count(w) + 1)
}

// w without the name at the rank.
pub fn without_name(w: u64, rank: u64) -> u64
    requires { (rank < s.count w) × (s.count w ≤ s.entries) }
    ensures { result ≡ s.slot (remove rank (s.names w)) }
{
    let names = remove_byte(w >> 8, rank);
    slot_of(names, count(w) - 1)
}

// The slot word that names the entries 0 to n - 1.
pub fn rising_names(n: u64) -> u64
    requires { n ≤ s.entries }
    ensures { result ≡ s.slot (count_from 0 n) }
{
    slot_of(0x0006_0504_0302_0100, n)
}

// The names of a full node with e put in at the rank: a word of eight names.
pub fn eight_names(w: u64, rank: u64, e: u64) -> u64
    requires { (s.count w ≡ s.entries) × (rank ≤ s.entries) × (e < s.byte) }
    ensures { s.bytes 8 result ≡ insert rank e (s.names w) }
{
    insert_byte(w >> 8, rank, e)
}

// The lowest entry that is not among the lowest n of a word of names.
pub fn spot_of(names: u64, n: u64) -> u64
    requires { n ≤ 8 }
    ensures { (result ≡ s.spot (s.bytes n names)) × (result ≤ s.entries) }
{
    let seen = marks_of(names, n);
    for i in 0..Node::ENTRIES {
        if !marked(seen, i) {
            return i;
        }
    }
    Node::ENTRIES
}

// The lowest entry that is not named.
pub fn spot(w: u64) -> u64
    requires { s.count w ≤ s.entries }
    ensures { (result ≡ s.spot (s.names w)) × (result ≤ s.entries) }
{
    spot_of(w >> 8, count(w))
}
