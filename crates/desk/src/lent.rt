// Desks, and the forms in which callers lend them.
ghost use Rattle.std.specs.Prelude.{◌≡◌, List, map, refl};
ghost use Rattle.desk.specs.Desk as d;
ghost use Rattle.std.proofs.Common.{sym};
ghost use Rattle.std.proofs.lemmas.List.{map-id};

use change::Request;

// A desk is empty, or holds a request.
pub type Desk = Option<Request>;

// What is named once of a list of desks.
#[derive(Drop)]
pub struct DeskList {}

impl DeskList {
    pub const FRESH: Desk = None;

    // The desks of a list, at most.
    pub const MOST: usize = 16;
}

// The constants are those of the definitions.
fn named_once() -> Desk
    ensures fresh { result ≡ d.fresh }
    ensures most { DeskList.MOST ≡ d.desks_most }
{
    DeskList::FRESH
}

// A desk in the form that a caller lends.
pub trait Lent: Copy {
    // What it says.
    ghost says: { Self → d.Desk };

    // A list of them, read as desks.
    ghost reads: { List Self → List d.Desk };

    // One that says a given thing.
    ghost made: { d.Desk → Self };

    fn desk(self) -> Desk
        ensures { result ≡ says self };

    fn from_desk(desk: Desk) -> Self
        ensures { result ≡ made desk };

    // The laws: a list is read desk by desk, and what is made is read back.
    ghost reads_each: { (ds : List Self) → reads ds ≡ map says ds };

    ghost says_made: { (d : d.Desk) → says (made d) ≡ d };
}

impl Lent for Option<Request> {
    ghost says = { λ d. d };

    ghost reads = { λ ds. ds };

    ghost made = { λ d. d };

    fn desk(self) -> Desk {
        self
    }

    fn from_desk(desk: Desk) -> Desk {
        desk
    }

    ghost reads_each = { λ ds. sym (map-id ds) };

    ghost says_made = { λ d. refl };
}
