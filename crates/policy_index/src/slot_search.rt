ghost use Rattle.std.specs.Prelude.{◌≡◌, ℕ, ◌+◌, ◌≤◌, ◌&&◌, ◌++◌, List, OnOk, length, nat_lt, true};
ghost use Rattle.policy_table.specs.Tables.{Fields};
ghost use Rattle.policy_index.specs.Found.{AddsSlots};
ghost use Rattle.policy_index.specs.Hashes.{IsKeyOf};
ghost use Rattle.policy_index.specs.Helps.FoundSlots.{AddsMarks, has_front_below, is_found, is_front_of, is_sought};
ghost use Rattle.policy_index.specs.Helps.Kept.{has_front, has_hash};
ghost use Rattle.policy_index.specs.Indexed.{IsIndexOf};
ghost use Rattle.policy_index.specs.Keys.{agrees};
ghost use Rattle.policy_index.specs.declared.mark.Mark.{Mark};

use crate::hashes::{before_front, hash_byte, hash_whole};
use crate::index::Index;
use crate::key::shortened;
use outside::NoMemory;

impl Index {
    /// Puts the slots of rows behind others: those of all rows that have the texts of a hash in the columns of the key and whose
    /// pattern, where the key has one, a text may fit; a few further rows may be among them, since rows that do not agree can
    /// have one hash. Its time grows with what it finds, and with the length of the text.
    #[inline(always)]
    pub fn gather(&self, hash: u64, asked: &[u8], slots: &mut Vec<u32>) -> Result<(), NoMemory>
        ensures { OnOk result ((by_slot : List Fields) (texts : List (List ℕ))
            → IsIndexOf self.now by_slot → IsKeyOf hash texts
            → AddsSlots (agrees self.now.key texts asked.now) by_slot slots.old.items slots.new.items) }
    {
        self.gather_marks(hash, asked, slots)?;
        Ok(())
    }

    // Those of all marks that are looked for.
    fn gather_marks(&self, hash: u64, asked: &[u8], slots: &mut Vec<u32>) -> Result<(), NoMemory>
        ensures { OnOk result (AddsMarks (is_sought self.now.key.pattern hash asked.now)
            self.now.marks slots.old.items slots.new.items) }
    {
        match self.key.pattern() {
            Some(_) => self.gather_fitting(hash, asked, slots),
            None => self.push_slots(hash, slots),
        }
    }

    // Those of the rows whose pattern is the text, or has a front that it begins with.
    fn gather_fitting(&self, hash: u64, asked: &[u8], slots: &mut Vec<u32>) -> Result<(), NoMemory>
        ensures { OnOk result (AddsMarks (is_found hash asked.now)
            self.now.marks slots.old.items slots.new.items) }
    {
        self.push_slots(hash_whole(hash, asked), slots)?;
        self.gather_fronts(hash, shortened(asked), slots)
    }

    // Those of the rows whose front a short text begins with.
    fn gather_fronts(&self, hash: u64, text: &[u8], slots: &mut Vec<u32>) -> Result<(), NoMemory>
        requires { length text.now ≤ 255 }
        ensures { OnOk result (AddsMarks (has_front_below hash text.now (1 + length text.now))
            self.now.marks slots.old.items slots.new.items) }
    {
        let mut front = before_front(hash);
        self.push_fronts(front, 0, slots)?;
        for at in 0..text.len() {
            front = hash_byte(front, text[at]);
            self.push_fronts(front, at as u8 + 1, slots)?;
        }
        Ok(())
    }

    // Those of the rows under a hash, where some row has a front of this length.
    fn push_fronts(&self, hash: u64, size: u8, slots: &mut Vec<u32>) -> Result<(), NoMemory>
        ensures { OnOk result (AddsMarks (λ mark. has_front size mark && has_hash hash mark)
            self.now.marks slots.old.items slots.new.items) }
    {
        if !self.fronts.has(size) {
            return Ok(());
        }
        self.push_slots(hash, slots)
    }

    // Those of the rows under a hash.
    #[inline(always)]
    fn push_slots(&self, hash: u64, slots: &mut Vec<u32>) -> Result<(), NoMemory>
        ensures { OnOk result (AddsMarks (has_hash hash)
            self.now.marks slots.old.items slots.new.items) }
    {
        push_all(slots, self.slots.of(hash))
    }
}

// Puts slots behind others.
fn push_all(slots: &mut Vec<u32>, more: &[u32]) -> Result<(), NoMemory>
    ensures { OnOk result (slots.new.items ≡ slots.old.items ++ more.now) }
{
    for slot in more {
        slots.push(*slot)?;
    }
    Ok(())
}
