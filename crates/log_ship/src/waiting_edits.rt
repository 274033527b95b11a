ghost use Rattle.std.specs.Prelude.{◌≡◌, ◌≤◌, [], OnErr, OnOk, drop, length, nat_le};
ghost use Rattle.std.specs.List.{prefix_len};
ghost use Rattle.log_ship.specs.Helps.Waits.{run_len};
ghost use Rattle.log_ship.specs.Taken.{put, run_from, waits};

use outside::NoMemory;
use policy_table::Edit;
use std::alloc::Global;
use std::marker::Model;

/// Edits that wait, by rising number. Contracts see them with their numbers.
pub(crate) struct WaitingEdits {
    numbers: Vec<u32>,
    // The edit of each number.
    edits: Vec<Edit>,
}

// Written out, so that a caller's proof sees one call and not the drop of each field.
impl Drop for WaitingEdits {
    fn drop(self) {
        let WaitingEdits {
            numbers: _numbers,
            edits: _edits,
        } = self;
    }
}

impl Model for WaitingEdits {
    ghost use Rattle.std.specs.Prelude.{◌≡◌, List, length};
    ghost use Rattle.log_ship.specs.Followers.{Held};
    ghost use Rattle.log_ship.specs.Helps.Waits.{held_by};

    ghost Value = { List Held };

    ghost view = { λ w. held_by w.numbers.items w.edits.items };

    ghost invariant = { λ w. length w.numbers.items ≡ length w.edits.items };
}

impl WaitingEdits {
    /// No edits.
    pub(crate) fn new(alloc: Global) -> WaitingEdits
        ensures { result ≡ [] }
    {
        WaitingEdits {
            numbers: Vec::new(alloc),
            edits: Vec::new(alloc),
        }
    }

    /// Whether an edit of this number waits.
    pub(crate) fn has(&self, number: u32) -> bool
        ensures { result ≡ waits number self.now }
    {
        self.numbers.contains(&number)
    }

    /// Puts an edit before the first of a higher number.
    pub(crate) fn put(&mut self, number: u32, edit: Edit) -> Result<(), NoMemory>
        ensures put { OnOk result (self.new ≡ put (record { number = number; edit = edit }) self.old) }
        ensures refused { OnErr result (self.new ≡ self.old) }
    {
        let place = place_of(&self.numbers, number);
        self.numbers.reserve(1)?;
        self.edits.insert(place, edit)?;
        self.numbers.insert(place, number)?;
        Ok(())
    }

    /// The edits of this number and of those that follow without a gap, where the first that waits has this number.
    pub(crate) fn run(&self, number: u32) -> &[Edit]
        ensures { result.now ≡ run_from number self.now }
    {
        &self.edits[..run_len(&self.numbers, number)]
    }

    /// Drops so many edits in front.
    pub(crate) fn drop_front(&mut self, count: usize)
        requires { count ≤ length self.old }
        ensures { self.new ≡ drop count self.old }
    {
        self.numbers.drain(..count);
        self.edits.drain(..count);
    }
}

// How many numbers are not above this one, in front of the first that is.
fn place_of(numbers: &[u32], number: u32) -> usize
    ensures { result ≡ prefix_len (λ other. nat_le other number) numbers.now }
{
    numbers.iter().take_while(|other| **other <= number).count()
}

// How many numbers in front are this one and those that follow without a gap.
fn run_len(numbers: &[u32], first: u32) -> usize
    ensures { result ≡ run_len first numbers.now }
{
    let mut next = u64::from(first);
    for (at, number) in numbers.iter().enumerate() {
        if u64::from(*number) != next {
            return at;
        }
        next += 1;
    }
    numbers.len()
}
