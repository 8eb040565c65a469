// A set of numbers below 64 in one word: number x is in it where bit x is set.
ghost use Rattle.std.specs.Prelude.{◌≡◌, ◌||◌, ℕ, ◌≤◌, ◌<◌, eqb};
ghost use Rattle.node.specs.Lists.{has};
ghost use Rattle.node.specs.Slot.{bytes};
ghost use Rattle.node.specs.inner.Marks as m;

pub fn marked(seen: u64, x: u64) -> bool
    requires { x < 64 }
    ensures { result ≡ m.marked seen x }
{
    (seen >> x) & 1 == 1
}

pub fn with_mark(seen: u64, e: u64) -> u64
    requires { e < 64 }
    ensures { (x : ℕ) → m.marked result x ≡ (eqb x e || m.marked seen x) }
{
    seen | (1 << e)
}

// The numbers below 64 among the lowest n bytes of a word.
pub fn marks_of(names: u64, n: u64) -> u64
    requires { n ≤ 8 }
    ensures { (x : ℕ) → x < 64 → m.marked result x ≡ has x (bytes n names) }
{
    let mut rest = names;
    let mut seen: u64 = 0;
    for _ in 0..n {
        let e = rest & 0xff;
        if e < 64 {
            seen = with_mark(seen, e);
        }
        rest >>= 8;
    }
    seen
}
