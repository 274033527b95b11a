ghost use Rattle.std.specs.Prelude.{◌↔◌, IsTrue, option_copied};
ghost use Rattle.perm_base.specs.declared.shapes.Shapes.{Shapes};
ghost use Rattle.policy_table.specs.Tables.{Policy};
ghost use Rattle.matcher_meaning.specs.Cases.{IsLinkedBy};

/// What tells whether a role relation links one name to another. Contracts see the tables, whose role rows are the
/// links, and their shapes.
pub trait Links {
    ghost shapes: { Self → Shapes };

    ghost policy: { Self → Policy };

    /// Whether the relation of this number links the one name to the other, in a domain or without one. A relation that
    /// is not there, or is asked in the other way, links none. It takes no memory.
    fn linked(&self, relation: u8, x: &[u8], y: &[u8], domain: Option<&[u8]>) -> bool
        ensures { IsTrue result ↔ IsLinkedBy (shapes self.now) (policy self.now) relation
            x.now y.now (option_copied domain.entry) };
}
