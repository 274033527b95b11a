ghost use Rattle.std.specs.Prelude.{◌≡◌, ◌+◌, ◌≤◌, false, true};
ghost use Rattle.std.specs.List.{list_all};
ghost use Rattle.log_ship.specs.Followers.{Held, IsSame, version_of};
ghost use Rattle.log_ship.specs.Helps.Looks.{IsLook};
ghost use Rattle.log_ship.specs.Taken.{IsAnswer, Takes, after_answer, edit_answer, is_repeated, may_come, rules_may_stand};

use crate::appended::advance;
use crate::follower::Follower;
use crate::packet::Packet;
use crate::taken::{TakeRefused, Taken};
use edit_calls::may_stand;
use perm_base::Shapes;
use policy_table::{Change, Edit};
use std::alloc::Global;
use version_log::{EditFault, read_edit};

// By how much a packet's number may be above the version.
const MOST_AHEAD: u32 = 1_024;

// The greatest number of a version.
const MOST_VERSIONS: u32 = 4_000_000_000;

impl Follower {
    /// Takes a packet. One whose edit is applied or waits already is passed over. The edit of the next version is appended, and
    /// with it those that wait behind it without a gap, up to the first that is not admitted, which is dropped. The edit of a
    /// later version waits. Whatever is refused leaves the follower as it was, also where memory runs out.
    pub fn take(&mut self, alloc: Global, packet: &Packet) -> Result<Taken, TakeRefused>
        ensures taken { Takes self.old packet.now result self.new }
    {
        match self.look(alloc, packet)? {
            None => Ok(Taken::Repeated),
            Some(edit) => self.accept(alloc, packet.number, edit),
        }
    }

    // The edit of a packet, if it is neither applied nor waits.
    fn look(&self, alloc: Global, packet: &Packet) -> Result<Option<Edit>, TakeRefused>
        ensures { IsLook self.now packet.now result }
    {
        if self.has(packet.number) {
            return Ok(None);
        }
        let version = self.state.version();
        if version + MOST_AHEAD < packet.number {
            return Err(TakeRefused::TooFar { version });
        }
        let edit = match read_edit(alloc, packet.text.bytes()) {
            Ok(edit) => edit,
            Err(EditFault::Malformed { line }) => return Err(TakeRefused::Malformed { line }),
            Err(EditFault::NoMemory) => return Err(TakeRefused::NoMemory),
        };
        if !may_come(self.state.shapes(), packet.number, &edit) {
            return Err(TakeRefused::Misfit);
        }
        Ok(Some(edit))
    }

    // Whether the edit of this number is applied or waits.
    fn has(&self, number: u32) -> bool
        ensures { result ≡ is_repeated self.now number }
    {
        number <= self.state.version() || self.waiting.has(number)
    }

    // Takes an edit that is neither applied nor waits.
    fn accept(&mut self, alloc: Global, number: u32, edit: Edit) -> Result<Taken, TakeRefused>
        requires new { is_repeated self.old number ≡ false }
        requires comes { may_come self.old.state.shapes number edit ≡ true }
        ensures answer { IsAnswer (edit_answer self.old number edit) result }
        ensures after { IsSame (after_answer result (record { number = number; edit = edit })
            self.old) self.new }
    {
        let version = self.state.version();
        self.waiting.put(number, edit)?;
        if number != version + 1 {
            return Ok(Taken::Waiting);
        }
        let Ok(count) = advance(alloc, &mut self.state, &mut self.drafts, &mut self.waiting) else {
            self.waiting.drop_front(1);
            return Err(TakeRefused::NoMemory);
        };
        if count == 0 {
            return Err(TakeRefused::Misfit);
        }
        let version = self.state.version();
        Ok(Taken::Applied { version })
    }
}

// Whether an edit may be one of this number.
fn may_come(shapes: &Shapes, number: u32, edit: &Edit) -> bool
    ensures { result ≡ may_come shapes.now number edit.now }
{
    number <= MOST_VERSIONS && edit_may_stand(shapes, edit)
}

// Whether each rule that an edit names may stand in its table.
fn edit_may_stand(shapes: &Shapes, edit: &Edit) -> bool
    ensures { result ≡ list_all (rules_may_stand shapes.now) edit.now }
{
    edit.as_slice()
        .iter()
        .all(|change| rules_may_stand(shapes, change))
}

fn rules_may_stand(shapes: &Shapes, change: &Change) -> bool
    ensures { result ≡ rules_may_stand shapes.now change.now }
{
    match change {
        Change::Insert { table, rule } => may_stand(shapes, *table, rule),
        Change::Remove { table, rule } => may_stand(shapes, *table, rule),
        Change::Replace { table, old, new } => {
            may_stand(shapes, *table, old) && may_stand(shapes, *table, new)
        }
    }
}
