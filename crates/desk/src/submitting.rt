// A member submits a request.
ghost use Rattle.std.specs.Prelude.{◌≡◌, ◌-◌, if◌then◌else◌};
ghost use Rattle.desk.specs.Desk.{may_submit};
ghost use Rattle.desk.specs.Promises.{SubmitPromise, laid};

use crate::lent::{DeskList, Lent};
use change::Request;
use words::Refusal;

// The place of a member's desk.
pub fn seat(desks: usize, member: u64) -> Result<usize, Refusal>
    ensures { result ≡ (if may_submit desks member then Ok (member - 1) else Err Refusal.NoDesk) }
{
    if DeskList::MOST < desks || !(1..=desks as u64).contains(&member) {
        return Err(Refusal::NoDesk);
    }
    Ok(member as usize - 1)
}

pub fn submit<L: Lent>(desks: &mut [L], member: u64, request: Request) -> Result<(), Refusal>
    ensures promise { SubmitPromise (L.reads desks.old) member request result (L.reads desks.new) }
    ensures lent { desks.new ≡ laid L.reads L.made desks.old member request }
{
    let i = seat(desks.len(), member)?;
    if desks[i].desk().is_some() {
        return Err(Refusal::FullDesk);
    }
    desks[i] = L::from_desk(Some(request));
    Ok(())
}
