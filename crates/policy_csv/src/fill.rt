ghost use Rattle.std.specs.Prelude.{◌≡◌, IfOk, OnOk, Some, length};
ghost use Rattle.perm_base.specs.Shapes.{AreValid};
ghost use Rattle.policy_csv.specs.Helps.Filled.{IsFilled, ranked_if};
ghost use Rattle.policy_csv.specs.Policy.{with_entry};
ghost use Rattle.policy_table.specs.Limits.{columns_of, passed};

use crate::entry::Entry;
use outside::NoMemory;
use perm_base::Shapes;
use policy_table::{Limit, Tables};

/// Puts a rule in, unless it stands. Gives the first limit that the tables pass then.
pub(crate) fn put(
    tables: &mut Tables,
    shapes: &Shapes,
    entry: Entry,
) -> Result<Option<Limit>, NoMemory>
    requires valid { AreValid shapes.now }
    requires columns { columns_of shapes.now entry.table ≡ Some (length entry.rule) }
    requires filled { IsFilled shapes.now tables.old.policy }
    ensures tables { OnOk result (tables.new.policy ≡ with_entry entry tables.old.policy) }
    ensures limit { IfOk result (λ limit. limit ≡ passed shapes.now tables.new.policy) }
{
    let Entry { table, rule } = entry;
    if !tables.insert(table, rule)? {
        return Ok(None);
    }
    Ok(tables.passed(shapes))
}

/// The tables with p ranked, where it is to be.
pub(crate) fn ranked_if(ranked: bool, tables: Tables) -> Result<Tables, NoMemory>
    ensures { IfOk result (λ done. done.policy ≡ ranked_if ranked tables.policy) }
{
    if ranked { tables.ranked() } else { Ok(tables) }
}
