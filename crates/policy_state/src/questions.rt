ghost use Rattle.std.specs.Prelude.{◌≡◌, ◌↔◌, ◌+◌, ◌≤◌, ℕ, Bool, IfOk, IfSome, IsSome, IsTrue, List, Some};
ghost use Rattle.std.specs.Option.{option_copied};
ghost use Rattle.perm_base.specs.RoleShapes.{shape_of};
ghost use Rattle.perm_base.specs.declared.shapes.RoleShape.{RoleShape};
ghost use Rattle.perm_base.specs.declared.shapes.TableId.TheVariants.{G, P};
ghost use Rattle.policy_index.specs.Keys.{of_column};
ghost use Rattle.policy_index.specs.Places.{places_of};
ghost use Rattle.policy_state.specs.Asked.{IsAskedOf};
ghost use Rattle.policy_state.specs.States.{tables};
ghost use Rattle.policy_table.specs.Tables.{Fields, rows};
ghost use Rattle.role_domain.specs.Reach.{ReachesName};
ghost use Rattle.role_domain.specs.Relations.{HasFewRoles, TellsRows, asked_rows};
ghost use Rattle.role_domain.specs.Sections.{IsSectionOf};
ghost use Rattle.role_meaning.specs.Implied.{AreImplied};
ghost use Rattle.role_meaning.specs.Links.{IsLinked};

use crate::state::PolicyState;
use outside::NoMemory;
use perm_base::Rule;
use role_domain::{Reach, RoleSection, Room, Steps};
use std::alloc::Global;
use std::sync::ledger::Ledger;

impl PolicyState {
    /// Whether an index is kept by this column alone. Then the rising places, counted from 0, of the rows of p whose column equals
    /// a text take the place of what `places` held; its time does not grow with p.
    pub fn index_rows(
        &self,
        column: u32,
        text: &[u8],
        places: &mut Vec<u32>,
    ) -> Result<bool, NoMemory>
        ensures kept { IfOk result (λ kept. IsTrue kept ↔ (self.now.key ≡ Some (of_column column))) }
        ensures rows { IfOk result (λ kept. IsTrue kept → places.new.items
            ≡ places_of column text.now (rows (tables self.now) P)) }
    {
        let Some(index) = &self.index else {
            return Ok(false);
        };
        if !index.key().is_column(column) {
            return Ok(false);
        }
        index.rows_of(&self.tables, column, text, places)?;
        Ok(true)
    }

    /// The section of a role relation.
    pub fn section(&self, relation: u8) -> &RoleSection
        requires there { IsSome (shape_of self.now.shapes.roles relation) }
        ensures shape { shape_of self.now.shapes.roles relation ≡ Some result.now.shape }
        ensures limit { result.now.limit ≡ self.now.shapes.limit }
        ensures section { IsSectionOf result.now (rows (tables self.now) (G relation)) }
    {
        let Some(section) = self.sections.find(relation) else {
            unreachable!()
        };
        section
    }

    /// Whether the one name has the other as its role in a relation, in one domain where the relation has domains, by at most
    /// as many links as the hierarchy limit says (Casbin, `hasLink`). It takes no memory, and in a domain with few roles no
    /// more steps than its rows of the name and of patterns are, and one.
    pub fn linked<L: Ledger>(
        &self,
        relation: u8,
        x: &[u8],
        y: &[u8],
        domain: Option<&[u8]>,
        steps: &mut Steps<L>,
    ) -> bool
        requires asked { IsAskedOf self.now.shapes relation (option_copied domain) }
        ensures found { (shape : RoleShape) → shape_of self.now.shapes.roles relation ≡ Some shape
            → IsTrue result ↔ IsLinked shape (rows (tables self.now) (G relation))
            self.now.shapes.limit (option_copied domain.entry) x.now y.now }
        ensures steps { steps.old ≤ steps.new }
        ensures few_steps { (shape : RoleShape) (test : Fields → Bool)
            → shape_of self.now.shapes.roles relation ≡ Some shape
            → TellsRows shape (rows (tables self.now) (G relation)) (option_copied domain.entry) test
            → HasFewRoles shape (rows (tables self.now) (G relation)) (option_copied domain.entry)
            → steps.new ≤ steps.old
            + asked_rows shape test x.now (rows (tables self.now) (G relation)) + 1 }
    {
        self.section(relation).linked(x, y, domain, steps)
    }

    /// What the one name has as its roles in a relation, in one domain where the relation has domains, found once; each question
    /// then reads it, in time that does not grow with the domain. None where no rule names the domain. It takes no memory beside
    /// the room.
    pub fn reach<'a>(
        &'a self,
        relation: u8,
        x: &'a [u8],
        domain: Option<&[u8]>,
        room: &'a mut Room,
    ) -> Option<Reach<'a>>
        requires asked { IsAskedOf self.now.shapes relation (option_copied domain) }
        ensures found { (shape : RoleShape) → shape_of self.now.shapes.roles relation ≡ Some shape
            → IfSome result (λ reach. (y : List ℕ) → ReachesName reach y
            ↔ IsLinked shape (rows (tables self.now) (G relation)) self.now.shapes.limit
            (option_copied domain.entry) x.now y) }
    {
        self.section(relation).reach(x, domain, room)
    }

    /// The names other than `x` that it has as its roles in a relation by links, in one domain where the relation has domains:
    /// the nearer first, those of one distance by bytes (Casbin, implicit roles).
    pub fn roles_within(
        &self,
        alloc: Global,
        relation: u8,
        x: &[u8],
        domain: Option<&[u8]>,
    ) -> Result<Rule, NoMemory>
        requires asked { IsAskedOf self.now.shapes relation (option_copied domain) }
        ensures implied { IfOk result (λ names. (shape : RoleShape)
            → shape_of self.now.shapes.roles relation ≡ Some shape
            → AreImplied shape (rows (tables self.now) (G relation)) self.now.shapes.limit
            (option_copied domain.entry) x.now names) }
    {
        self.section(relation).roles_within(alloc, x, domain)
    }
}
