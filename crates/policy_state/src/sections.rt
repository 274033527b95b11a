ghost use Rattle.std.specs.Prelude.{◌≡◌, ◌==◌, All, IfOk, find, map, true};
ghost use Rattle.std.specs.Option.{option_copied, option_map};
ghost use Rattle.perm_base.specs.Shapes.{AreValid};
ghost use Rattle.perm_base.specs.declared.shapes.Shapes.{Shapes};
ghost use Rattle.policy_state.specs.Helps.Kept.{AreSections, CanTake, IsSectionIn, kept_of};
ghost use Rattle.policy_state.specs.Ready.{CanLink};
ghost use Rattle.policy_table.specs.Changes.{applies, edited, flat};
ghost use Rattle.policy_table.specs.Limits.{AreSound};
ghost use Rattle.policy_table.specs.Tables.{Policy};

use outside::{NoMemory, Share};
use perm_base::Shapes;
use policy_table::{Edit, Tables};
use role_domain::{PreparedSection, RoleSection};
use std::alloc::Global;
use std::marker::Model;

/// The sections of a policy's role relations. Contracts see the list of them.
pub(crate) struct Sections {
    sections: Vec<RoleSection>,
}

// Written out, so that a caller's proof sees one call and not the drop of each field.
impl Drop for Sections {
    fn drop(self) {
        let Sections {
            sections: _sections,
        } = self;
    }
}

impl Model for Sections {
    ghost use Rattle.std.specs.Prelude.{List};
    ghost use Rattle.role_domain.specs.Sections.{Section};

    ghost Value = { List Section };

    ghost view = { λ s. s.sections.items };
}

impl Sections {
    /// A section for each relation of the shapes.
    pub(crate) fn make(
        alloc: Global,
        shapes: &Shapes,
        tables: &Tables,
    ) -> Result<Sections, NoMemory>
        requires valid { AreValid shapes.now }
        requires sound { AreSound shapes.now tables.now.policy }
        ensures { IfOk result (AreSections shapes.now tables.now.policy) }
    {
        let roles = shapes.roles.as_slice();
        let mut sections = Vec::with_capacity(alloc, roles.len())?;
        for shape in roles {
            sections.push(RoleSection::make(alloc, *shape, shapes.limit, tables)?)?;
        }
        Ok(Sections { sections })
    }

    /// The same sections once more, their room aside.
    pub(crate) fn copy(&self, alloc: Global) -> Result<Sections, NoMemory>
        ensures { IfOk result (λ copy. (shapes : Shapes) (policy : Policy)
            → AreSections shapes policy self.now → AreSections shapes policy copy) }
    {
        let mut sections = Vec::with_capacity(alloc, self.sections.len())?;
        for section in &self.sections {
            sections.push(section.copy(alloc)?)?;
        }
        Ok(Sections { sections })
    }

    /// The section of the relation of a number.
    pub(crate) fn find(&self, number: u8) -> Option<&RoleSection>
        ensures { option_copied result
            ≡ find (λ section. section.shape.number == number) self.now }
    {
        for section in &self.sections {
            if section.shape().number == number {
                return Some(section);
            }
        }
        None
    }

    /// Makes edits of the tables ready in each section, before they are made there.
    pub(crate) fn prepare(
        &mut self,
        alloc: Global,
        edits: &[Edit],
        tables: &Tables,
    ) -> Result<Vec<PreparedSection>, NoMemory>
        requires possible { applies (flat edits.now) tables.now.policy ≡ true }
        requires each { All (CanTake edits.now tables.now.policy) self.old }
        ensures kept { map kept_of self.new ≡ map kept_of self.old }
        ensures each { All (IsSectionIn tables.now.policy) self.new }
        ensures ready { IfOk result (λ prepared.
            CanLink (edited (flat edits.now) tables.now.policy) self.new prepared.items) }
    {
        let mut prepared = Vec::with_capacity(alloc, self.sections.len())?;
        for at in 0..self.sections.len() {
            prepared.push(self.sections[at].prepare(alloc, edits, tables)?)?;
        }
        Ok(prepared)
    }

    /// Makes in each section what was prepared for it. It takes no memory.
    pub(crate) fn commit(&mut self, prepared: Vec<PreparedSection>)
        requires { (after : Policy) × CanLink after self.old prepared.items }
        ensures kept { map kept_of self.new ≡ map kept_of self.old }
        ensures each { (after : Policy) → CanLink after self.old prepared.items
            → All (IsSectionIn after) self.new }
    {
        let mut at = 0;
        for ready in prepared {
            self.sections[at].commit(ready);
            at += 1;
        }
    }
}

impl Share for Sections {}
