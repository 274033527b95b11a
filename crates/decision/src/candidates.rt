ghost use Rattle.std.specs.Prelude.{◌≡◌, [], ◌∷◌, MatchOption};
ghost use Rattle.matcher_meaning.specs.Order.{numbered, numbered_from};
ghost use Rattle.decision.specs.Helps.Asked.{case_in, rows_of};
ghost use Rattle.decision.specs.Helps.Covers.{Covers};
ghost use Rattle.decision.specs.Helps.LeftOut.{LeavesOut};

use crate::asking::Asking;
use crate::looked::Looked;
use perm_base::{Rule, TableId};
use policy_table::{Rows, Tables};
use std::marker::Model;

/// The rows of p that may decide, each with its number, in the order of the table. Contracts see what is left of them.
#[derive(Drop)]
pub(crate) struct Candidates<'a> {
    tables: &'a Tables,
    // Those behind so many, where all are looked at.
    rows: Rows<'a>,
    passed: u32,
    // Those at these places, where only some are.
    places: Option<&'a [u32]>,
}

impl<'a> Model for Candidates<'a> {
    ghost use Rattle.std.specs.Prelude.{List};
    ghost use Rattle.std.specs.Option.{option_copied};
    ghost use Rattle.matcher_meaning.specs.Order.{Numbered};
    ghost use Rattle.perm_base.specs.declared.shapes.TableId.TheVariants.{P};
    ghost use Rattle.policy_table.specs.Tables as policy;
    ghost use Rattle.decision.specs.Helps.Covers.{AreInTable, rows_left};

    ghost Value = { List Numbered };

    ghost view = { λ c. rows_left (policy.rows c.tables.now.policy P) c.rows c.passed
        (option_copied c.places) };

    ghost invariant = { λ c. AreInTable (policy.rows c.tables.now.policy P) c.rows c.passed
        (option_copied c.places) };
}

impl<'a> Candidates<'a> {
    /// Those of what is asked for. It takes no memory.
    pub(crate) fn of(asking: &Asking<'a>, looked: Looked<'a>) -> Candidates<'a>
        requires { LeavesOut (case_in asking.now) (rows_of asking.now) looked }
        ensures { Covers (case_in asking.now) (numbered_from 1 (rows_of asking.now)) result }
    {
        let tables = asking.state.tables();
        let rows = tables.rows(TableId::P);
        match looked {
            Looked::All => Candidates {
                tables,
                rows,
                passed: 0,
                places: None,
            },
            Looked::Nothing => Candidates {
                tables,
                rows,
                passed: 0,
                places: Some(&[]),
            },
            Looked::At(places) => Candidates {
                tables,
                rows,
                passed: 0,
                places: Some(places),
            },
        }
    }

    /// The next one, and its number, counted from 1. Where all rows are looked at, its time does not grow with the table;
    /// else a row is found by halving.
    pub(crate) fn next(&mut self) -> Option<(u32, &'a Rule)>
        ensures { MatchOption result (self.old ≡ [])
            (λ found. self.old ≡ numbered found.0 found.1.now ∷ self.new) }
    {
        let Some(places) = self.places else {
            let Some(row) = self.rows.next() else {
                return None;
            };
            self.passed += 1;
            return Some((self.passed, row));
        };
        let Some((place, places)) = places.split_first() else {
            return None;
        };
        let row = self.tables.row(TableId::P, *place);
        self.places = Some(places);
        Some((*place + 1, row))
    }
}
