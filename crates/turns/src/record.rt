// A desk as it is lent: a kind, a key and a value.
ghost use Rattle.std.specs.Prelude.{◌≡◌, None, Some, refl};
ghost use Rattle.change.specs.declared.Request.TheVariants.{Put, Fetch, Delete};
ghost use Rattle.turns.specs.Desks as d;

use change::Request;
use desk::{Desk, Lent};

#[repr(C)]
#[derive(Clone, Copy)]
pub struct DeskRecord {
    pub kind: u64,
    pub key: u64,
    pub value: u64,
}

// The kinds of record. A record of any other kind is an empty desk.
impl DeskRecord {
    pub const NOTHING: u64 = 0;

    pub const PUT: u64 = 1;

    pub const FETCH: u64 = 2;

    pub const DELETE: u64 = 3;
}

// The constants are the numbers of the definitions.
fn named_once()
    ensures nothing { DeskRecord.NOTHING ≡ d.nothing }
    ensures put { DeskRecord.PUT ≡ d.put }
    ensures fetch { DeskRecord.FETCH ≡ d.fetch }
    ensures delete { DeskRecord.DELETE ≡ d.delete }
{}

impl Lent for DeskRecord {
    ghost says = { d.desk_of };

    ghost reads = { d.desks_of };

    ghost made = { d.record_of };

    fn desk(self) -> Desk {
        match self.kind {
            DeskRecord::PUT => Some(Request::Put(self.key, self.value)),
            DeskRecord::FETCH => Some(Request::Fetch(self.key)),
            DeskRecord::DELETE => Some(Request::Delete(self.key)),
            _ => None,
        }
    }

    fn from_desk(desk: Desk) -> DeskRecord {
        let (kind, key, value) = match desk {
            None => (DeskRecord::NOTHING, 0, 0),
            Some(Request::Put(key, value)) => (DeskRecord::PUT, key, value),
            Some(Request::Fetch(key)) => (DeskRecord::FETCH, key, 0),
            Some(Request::Delete(key)) => (DeskRecord::DELETE, key, 0),
        };
        DeskRecord { kind, key, value }
    }

    ghost reads_each = { λ rs. refl };

    // What is written into a record is read from it.
    ghost says_made = { elim [
      | None ↦ refl
      | Some (Put key value) ↦ refl
      | Some (Fetch key) ↦ refl
      | Some (Delete key) ↦ refl
    ] };
}
