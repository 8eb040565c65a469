// The most events of a split, a table by its levels.
ghost use Rattle.std.specs.Prelude.{◌≡◌, ◌≤◌};
ghost use Rattle.change.specs.Most.{most};

#[derive(Drop)]
pub struct Splits {}

impl Splits {
    // For 1 to 7 levels: the root kept, then a new root.
    pub const MOST: [u64; 14] = [
        55, 76, 98, 120, 142, 163, 185, 55, 77, 99, 121, 142, 164, 186,
    ];

    // For so many split levels; roots is 1 for a new root, 0 where the root is kept.
    fn most_events(levels: u64, roots: u64) -> u64
        requires { (1 ≤ levels) × (levels ≤ 7) × (roots ≤ 1) }
        ensures { result ≡ most roots levels }
    {
        let table = Splits::MOST;
        let at = (roots * 7 + levels - 1) as usize;
        table[at]
    }
}
