ghost use Rattle.std.specs.Prelude.{◌≡◌, ◌∷◌, ◌<◌, ◌≤◌, [], All, IfOk, length, vec_capacity};
ghost use Rattle.live_pair.specs.Seats.{IsNew};
ghost use Rattle.outside.specs.Faults.{Rose};
ghost use Rattle.policy_state.specs.States.{StandsFor};

use crate::admin::{Admin, AdminOver};
use crate::book::{Head, OpenedBook};
use crate::entrance::Entrance;
use crate::front::Front;
use crate::history_line::{HistoryLine, SideWriter};
use crate::naming::Naming;
use crate::places::Places;
use crate::seat::Seat;
use crate::side::{Side, make};
use crate::told::Told;
use left_right::writer::Writer;
use outside::NoMemory;
use policy_desk::Desk;
use std::alloc::Global;
use std::sync::{Arc, Wait};

/// Opens a pair over the policy of a desk, with so many seats, of which each but the first needs a way in that the places
/// give; it is one seat fewer for each that they refuse. Where memory runs out the desk is dropped. The book is one that no
/// other pair has.
pub fn open_pair<J: Naming, R: Wait, H: Places>(
    rt: &R,
    alloc: Global,
    opened: OpenedBook,
    desk: Desk,
    seats: u8,
    places: &mut H,
) -> Result<(Admin<J>, Vec<Seat<J>>), NoMemory>
    requires book { opened ≡ J.book }
    requires shapes { desk.state.shapes ≡ J.shapes }
    requires stands { StandsFor desk.state J.opening J.first }
    requires pending { desk.pending ≡ [] }
    requires some { 0 < seats }
    requires few { seats ≤ 8 }
    ensures list { IfOk result (λ pair. pair.0.list ≡ J.first ∷ []) }
    ensures shown { IfOk result (λ pair. pair.0.shown ≡ J.first ∷ []) }
    ensures desk { IfOk result (λ pair. pair.0.desk ≡ desk) }
    ensures seats { IfOk result (λ pair. All (IsNew (J.first ∷ [])) pair.1.items) }
    ensures one { IfOk result (λ pair. 0 < length pair.1.items) }
    ensures at_most { IfOk result (λ pair. length pair.1.items ≤ seats) }
    ensures fewer { IfOk result (λ pair. length pair.1.items < seats
        → Rose (H.faults places.old) (H.faults places.new)) }
    ensures counted { H.faults places.old ≤ H.faults places.new }
{
    let room = Vec::with_capacity(alloc, seats as usize)?;
    let (head, told) = opened.named::<J>(desk.state().version());
    let head = Arc::new(alloc, head)?;
    let front = Front::new(told.again());
    let writer = copies(alloc, &desk, &told, &head, seats)?;
    let reader = match writer.factory().reader() {
        Ok(reader) => reader,
        Err(_) => {
            drop(writer.take(rt));
            return Err(NoMemory);
        }
    };
    let first = Entrance::new(reader, front.again());
    let all = seats_of(room, first, seats, places);
    let admin = AdminOver::new(writer, desk, HistoryLine::new(head, told), front);
    Ok((admin, all))
}

// A seat for the first way in, and one for each further way that the places give, put where there is room for them.
fn seats_of<J: Naming, H: Places>(
    room: Vec<Seat<J>>,
    first: Entrance<J>,
    seats: u8,
    places: &mut H,
) -> Vec<Seat<J>>
    requires none { room.items ≡ [] }
    requires enough { seats ≤ vec_capacity room }
    requires some { 0 < seats }
    requires new { first.refused ≡ 0 }
    ensures seats { All (IsNew first.front) result.items }
    ensures one { 0 < length result.items }
    ensures at_most { length result.items ≤ seats }
    ensures fewer { length result.items < seats
        → Rose (H.faults places.old) (H.faults places.new) }
    ensures counted { H.faults places.old ≤ H.faults places.new }
{
    let mut all = room;
    for _ in 1..seats {
        let Ok(way) = places.more(&first) else {
            continue;
        };
        all.push_reserved(Seat::new(way));
    }
    all.push_reserved(Seat::new(first));
    all
}

// Two copies of the desk's policy, with so many places for readers.
fn copies<J: Naming>(
    alloc: Global,
    desk: &Desk,
    told: &Told<J>,
    head: &Arc<Head<J>>,
    seats: u8,
) -> Result<SideWriter<J>, NoMemory>
    requires none { told.now ≡ [] }
    requires shapes { desk.now.state.shapes ≡ J.shapes }
    requires stands { StandsFor desk.now.state J.opening J.first }
    requires some { 0 < seats }
    ensures { IfOk result (λ writer. writer.desk.shown.value ≡ told.now) }
{
    let first = copy_of(alloc, desk, told, head)?;
    let second = copy_of(alloc, desk, told, head)?;
    Ok(Writer::new(alloc, first, second, seats as usize)?)
}

// A copy of the desk's policy, whose log keeps none of its edits.
fn copy_of<J: Naming>(
    alloc: Global,
    desk: &Desk,
    told: &Told<J>,
    head: &Arc<Head<J>>,
) -> Result<Side<J>, NoMemory>
    requires none { told.now ≡ [] }
    requires shapes { desk.now.state.shapes ≡ J.shapes }
    requires stands { StandsFor desk.now.state J.opening J.first }
    ensures { IfOk result (λ side. side ≡ told.now) }
{
    let mut state = desk.state().copy(alloc)?;
    let start = state.version();
    make(&mut state, alloc, &[], start)?;
    let head = Arc::try_clone(head)?;
    Ok(Side::new(alloc, state, told.again(), head))
}
