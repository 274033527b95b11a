//! Laws of the definitions: what is asked of roles is decided, and has one answer.

ghost use Rattle.std.specs.Prelude.{◌≡◌, ◌⊎◌, ◌↔◌, ◌<◌, ◌≤◌, ℕ, suc, Bool, false, IsTrue, List, Option, get_or};
ghost use Rattle.std.specs.List.{Contains};
ghost use Rattle.perm_base.specs.Patterns.{is_pattern};
ghost use Rattle.perm_base.specs.declared.shapes.Fit.{Fit};
ghost use Rattle.perm_base.specs.declared.shapes.RoleShape.{RoleShape};
ghost use Rattle.policy_table.specs.Tables.{Fields};
ghost use Rattle.role_meaning.specs.Depths.{IsDepth, IsOrderByDepth, by_depth};
ghost use Rattle.role_meaning.specs.Distances.{IsFar, farthest};
ghost use Rattle.role_meaning.specs.Fits.{Fits};
ghost use Rattle.role_meaning.specs.Implied.{AreImplied};
ghost use Rattle.role_meaning.specs.ImpliedUsers.{AreImpliedUsers};
ghost use Rattle.role_meaning.specs.Links.{CountsIn, HasRoles, Reaches, SomeLink};

use key_match::covering_is_decided;

/// The law that a test tells whether a name fits, a row counts, a name reaches another, and a name
/// has roles.
pub fn links_are_decided()
    ensures fits { (fit : Fit) (name pattern : List ℕ) → (b : Bool) × (IsTrue b
        ↔ Fits fit name pattern) }
    ensures counts { (shape : RoleShape) (domain : Option (List ℕ)) (row : Fields)
        → (b : Bool) × (IsTrue b ↔ CountsIn shape domain row) }
    ensures reaches { (shape : RoleShape) (rows : List Fields) (domain : Option (List ℕ))
        (links : ℕ) (x y : List ℕ)
        → (b : Bool) × (IsTrue b ↔ Reaches shape rows domain links x y) }
    ensures has_roles { (shape : RoleShape) (rows : List Fields) (domain : Option (List ℕ))
        (name : List ℕ)
        → (b : Bool) × (IsTrue b ↔ HasRoles shape rows domain name) }
{
    covering_is_decided();
}

/// The law that a name that is no pattern of the function is fitted by itself alone.
pub fn plain_names_fit_themselves_alone()
    ensures { (fit : Fit) (name pattern : List ℕ)
        → is_pattern fit pattern ≡ false → Fits fit name pattern → name ≡ pattern }
{}

/// The law that what is reached by some links is reached by as many or more.
pub fn more_links_reach_no_less()
    ensures { (shape : RoleShape) (rows : List Fields) (domain : Option (List ℕ))
        (fewer links : ℕ) (x y : List ℕ)
        → fewer ≤ links
        → Reaches shape rows domain fewer x y
        → Reaches shape rows domain links x y }
{}

/// The law that the order of rows, and how often a row stands, are nothing to reaching: who has all
/// these rows reaches no less.
pub fn same_rows_reach_the_same()
    ensures { (shape : RoleShape) (rows others : List Fields) (domain : Option (List ℕ))
        (links : ℕ) (x y : List ℕ)
        → ((row : Fields) → Contains rows row → Contains others row)
        → Reaches shape rows domain links x y
        → Reaches shape others domain links x y }
{}

/// The law that a chain of links goes on at its end by one row more, and that each longer chain
/// does so.
pub fn links_go_on()
    ensures more { (shape : RoleShape) (rows : List Fields) (domain : Option (List ℕ))
        (links : ℕ) (x y z : List ℕ)
        → Reaches shape rows domain links x y
        → SomeLink shape rows domain y (λ role. role ≡ z)
        → Reaches shape rows domain (suc links) x z }
    ensures last { (shape : RoleShape) (rows : List Fields) (domain : Option (List ℕ))
        (links : ℕ) (x z : List ℕ)
        → Reaches shape rows domain (suc links) x z
        → Reaches shape rows domain links x z
        ⊎ ((y : List ℕ) × Reaches shape rows domain links x y
        × SomeLink shape rows domain y (λ role. role ≡ z)) }
{}

/// The law that two names have one distance.
pub fn distance_is_one()
    ensures there { (shape : RoleShape) (rows : List Fields) (domain : Option (List ℕ))
        (x y : List ℕ)
        → (distance : ℕ) × IsFar shape rows domain x y distance }
    ensures unique { (shape : RoleShape) (rows : List Fields) (domain : Option (List ℕ))
        (x y : List ℕ) (distance other : ℕ)
        → IsFar shape rows domain x y distance
        → IsFar shape rows domain x y other
        → distance ≡ other }
{
    links_are_decided();
}

/// The law that a name reaches another by some links exactly where their distance is not above that
/// number.
pub fn distance_tells_links()
    ensures { (shape : RoleShape) (rows : List Fields) (domain : Option (List ℕ)) (x y : List ℕ)
        (distance links : ℕ)
        → links ≤ farthest
        → IsFar shape rows domain x y distance
        → Reaches shape rows domain links x y ↔ (distance ≤ links) }
{}

/// The law that a name has one depth.
pub fn depth_is_one()
    ensures there { (shape : RoleShape) (rows : List Fields) (limit : ℕ)
        (domain : Option (List ℕ)) (name : List ℕ)
        → (depth : ℕ) × IsDepth shape rows limit domain name depth }
    ensures unique { (shape : RoleShape) (rows : List Fields) (limit : ℕ)
        (domain : Option (List ℕ)) (name : List ℕ) (depth other : ℕ)
        → IsDepth shape rows limit domain name depth
        → IsDepth shape rows limit domain name other
        → depth ≡ other }
{
    links_are_decided();
}

/// The law that the order by depth has each place once, the deeper before the less deep, and of one
/// depth the earlier before the later.
pub fn order_by_depth()
    ensures { (depths : List ℕ) → IsOrderByDepth depths (by_depth depths) }
{}

/// The law that a name has one list of implied roles.
pub fn implied_roles_are_one()
    ensures { (shape : RoleShape) (rows : List Fields) (limit : ℕ) (domain : Option (List ℕ))
        (x : List ℕ)
        (names others : List (List ℕ))
        → AreImplied shape rows limit domain x names
        → AreImplied shape rows limit domain x others
        → names ≡ others }
{}

/// The law that a name has one list of implied users.
pub fn implied_users_are_one()
    ensures { (shape : RoleShape) (rows : List Fields) (limit : ℕ) (domain : Option (List ℕ))
        (x : List ℕ)
        (names others : List (List ℕ))
        → AreImpliedUsers shape rows limit domain x names
        → AreImpliedUsers shape rows limit domain x others
        → names ≡ others }
{}
