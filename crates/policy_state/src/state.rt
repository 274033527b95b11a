ghost use Rattle.std.specs.Prelude.{◌≡◌, ◌≤◌, [], All, IfOk, IfSome, List, option_copied, true};
ghost use Rattle.perm_base.specs.Shapes.{AreValid};
ghost use Rattle.policy_index.specs.Keys.{is_below};
ghost use Rattle.policy_state.specs.Helps.Kept.{AreIndexed, key_of};
ghost use Rattle.policy_state.specs.States.{IsGrown, StandsFor, tables};
ghost use Rattle.perm_base.specs.declared.shapes.TableId.TheVariants.{P};
ghost use Rattle.policy_table.specs.Limits.{AreSound};
ghost use Rattle.policy_table.specs.Slots.{AreSlots, slots};
ghost use Rattle.policy_table.specs.Tables.{Policy, rows};
ghost use Rattle.policy_table.specs.declared.change.Change.{Change};
ghost use Rattle.version_log.specs.EditText.{NameRules};
ghost use Rattle.version_log.specs.Log.{most_versions, versions};

use crate::indexes::{copy_index, make_index};
use crate::sections::Sections;
use outside::{NoMemory, Share};
use perm_base::{RoleShapes, Shapes, TableId};
use policy_index::{Index, RowKey};
use policy_table::Tables;
use std::alloc::Global;
use std::marker::Model;
use version_log::{Log, new_log};

/// A policy as a whole (Casbin, the enforcer's model and policy): tables of given shapes, an index of p by a key or none, the role
/// relations, and the log of the edits that led to these tables. Each rule is kept in the tables alone. Contracts see the shapes,
/// the key, the log, and what is kept beside it.
pub struct PolicyState {
    pub(crate) shapes: Shapes,
    pub(crate) tables: Tables,
    pub(crate) index: Option<Index>,
    pub(crate) sections: Sections,
    pub(crate) log: Log,
}

// Written out, so that a caller's proof sees one call and not the drop of each field.
impl Drop for PolicyState {
    fn drop(self) {
        let PolicyState {
            shapes: _shapes,
            tables: _tables,
            index: _index,
            sections: _sections,
            log: _log,
        } = self;
    }
}

impl Model for PolicyState {
    ghost use Rattle.policy_state.specs.Helps.Kept.{IsState, key_of, parts_of};
    ghost use Rattle.policy_state.specs.States.{State};

    ghost Value = { State };

    ghost view = { λ s. record {
      shapes = s.shapes;
      key = key_of s.index;
      log = s.log;
      parts = parts_of s.tables s.index s.sections;
    } };

    ghost invariant = { λ s.
        IsState s.shapes s.log (parts_of s.tables s.index s.sections) };
}

/// The policy with these tables, at version 0. Its time is linear in the rows.
pub fn make_state(
    alloc: Global,
    shapes: Shapes,
    key: Option<RowKey>,
    tables: Tables,
) -> Result<PolicyState, NoMemory>
    requires valid { AreValid shapes }
    requires sound { AreSound shapes tables.policy }
    requires key { IfSome key (λ key. is_below shapes.columns key ≡ true) }
    ensures shapes { IfOk result (λ state. state.shapes ≡ shapes) }
    ensures key { IfOk result (λ state. state.key ≡ key) }
    ensures stands { IfOk result (λ state. StandsFor state tables.policy []) }
    ensures start { IfOk result (λ state. state.log.start ≡ 0) }
    ensures tables { IfOk result (λ state. state.parts.held.policy ≡ tables.policy) }
    ensures tail { IfOk result (λ state. state.log.tail ≡ []) }
{
    let index = make_index(alloc, key, &tables)?;
    let sections = Sections::make(alloc, &shapes, &tables)?;
    let log = new_log(alloc);
    Ok(PolicyState {
        shapes,
        tables,
        index,
        sections,
        log,
    })
}

impl PolicyState {
    /// The same policy once more, its room aside. Its time is linear in the rows, in the distances that the sections keep, and
    /// in the edits of the log.
    pub fn copy(&self, alloc: Global) -> Result<PolicyState, NoMemory>
        ensures shapes { IfOk result (λ copy. copy.shapes ≡ self.now.shapes) }
        ensures key { IfOk result (λ copy. copy.key ≡ self.now.key) }
        ensures start { IfOk result (λ copy. copy.log.start ≡ self.now.log.start) }
        ensures tail { IfOk result (λ copy. copy.log.tail ≡ self.now.log.tail) }
        ensures tables { IfOk result (λ copy. tables copy ≡ tables self.now) }
        ensures stands { IfOk result (λ copy. (opening : Policy) (history : List (List Change))
            → StandsFor self.now opening history → StandsFor copy opening history) }
    {
        let shapes = copy_shapes(alloc, &self.shapes)?;
        let tables = self.tables.copy(alloc)?;
        let index = copy_index(alloc, &self.index)?;
        let sections = self.sections.copy(alloc)?;
        let log = self.log.copy(alloc)?;
        Ok(PolicyState {
            shapes,
            tables,
            index,
            sections,
            log,
        })
    }

    /// The version after all edits.
    pub fn version(&self) -> u32
        ensures value { result ≡ versions self.now.log }
        ensures few { versions self.now.log ≤ most_versions }
    {
        self.log.versions()
    }

    /// The version that its log starts at.
    pub fn start(&self) -> u32
        ensures start { result ≡ self.now.log.start }
    {
        self.log.start()
    }

    /// The tables after all edits.
    pub fn tables(&self) -> &Tables
        ensures policy { result.now.policy ≡ tables self.now }
        ensures held { result.now ≡ self.now.parts.held }
    {
        &self.tables
    }

    /// The shapes of the tables.
    pub fn shapes(&self) -> &Shapes
        ensures shapes { result.now ≡ self.now.shapes }
    {
        &self.shapes
    }

    /// The index of p, where one is kept.
    pub fn index(&self) -> Option<&Index>
        ensures key { key_of (option_copied result) ≡ self.now.key }
        ensures rows { AreIndexed (option_copied result) (slots self.now.parts.held P) }
        ensures slots { AreSlots (slots self.now.parts.held P) (rows (tables self.now) P) }
    {
        let _by_slot = self.tables.by_slot(TableId::P);
        self.index.as_ref()
    }

    /// What it keeps: the shapes are valid, the tables are sound, and they have grown by the edits of the log, each of which was
    /// admitted in the tables before it. So each names rules of 1 to 32 fields, of tables with names, and its text is read back.
    pub fn kept(&self)
        ensures valid { AreValid self.now.shapes }
        ensures sound { AreSound self.now.shapes (tables self.now) }
        ensures grown { IsGrown self.now.shapes self.now.log.tail (tables self.now) }
        ensures names { All NameRules self.now.log.tail }
    {
        let _shapes = &self.shapes;
    }
}

impl Share for PolicyState {}

// The same shapes once more.
fn copy_shapes(alloc: Global, shapes: &Shapes) -> Result<Shapes, NoMemory>
    ensures { IfOk result (λ copy. copy ≡ shapes.now) }
{
    let roles = Vec::from_slice(alloc, shapes.roles.as_slice())?;
    Ok(Shapes {
        columns: shapes.columns,
        effect_column: shapes.effect_column,
        subject_column: shapes.subject_column,
        roles: RoleShapes::from_vec(roles),
        limit: shapes.limit,
        ranked: shapes.ranked,
    })
}
