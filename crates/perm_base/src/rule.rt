ghost use Rattle.std.specs.Prelude.{◌≡◌, ◌<◌, ◌^◌, IfOk, IfErr, OnOk, IsUtf8, Some, None, false, length, nat_eq, position, slice_get, vec_len};
ghost use Rattle.std.specs.Cmp.Lexicographic.{nat_list_eq_equiv, pointwise};
ghost use Rattle.std.specs.Cmp.{partial_equiv_from_equiv};
ghost use Rattle.std.specs.Hash as fed;
ghost use Rattle.std.specs.Str.{bytes_eq};
ghost use Rattle.std.proofs.lemmas.Cmp.{lists_equiv};
ghost use Rattle.std.proofs.lemmas.Slice.Eq.{bytes_eq-Decides};
ghost use Rattle.perm_base.specs.LineEnds.{AreFields, has_line_end};
ghost use Rattle.perm_base.specs.Rule.{line_end_of, IsFirstLineEnd};

use crate::line_ends::has_line_end;
use outside::{NoMemory, Share, Text};
use std::alloc::Global;
use std::hash::{Hash, Hasher};
use std::marker::Model;

/// A rule: fewer than 2^32 texts, none of which holds CR or LF. Contracts see the list of its texts.
#[derive(Drop)]
pub struct Rule {
    fields: Vec<Text>,
}

impl Model for Rule {
    ghost use Rattle.std.specs.Prelude.{List, ℕ};
    ghost use Rattle.perm_base.specs.LineEnds.{AreFields};

    ghost Value = { List (List ℕ) };

    ghost view = { λ r. r.fields.items };

    ghost invariant = { λ r. AreFields r.fields.items };
}

/// Why texts are no rule.
#[derive(Clone, Copy, Debug, PartialEq, Eq)]
pub enum RuleFault {
    /// The first text that holds CR or LF, counted from 1.
    LineEnd { field: u32 },
}

impl Rule {
    /// The rule of these texts, none of which holds CR or LF. It takes no memory.
    pub fn from_vec(fields: Vec<Text>) -> Rule
        requires { AreFields fields.items }
        ensures { result ≡ fields.items }
    {
        Rule { fields }
    }

    /// The rule of these texts. It takes no memory; where a text holds CR or LF, the texts are dropped.
    pub fn from_fields(fields: Vec<Text>) -> Result<Rule, RuleFault>
        requires { vec_len fields < 2 ^ 32 }
        ensures found { IfOk result (λ rule. rule ≡ fields.items) }
        ensures whole_lines { OnOk result (line_end_of fields.items ≡ None) }
        ensures line_end { IfErr result (IsFirstLineEnd fields.items) }
    {
        match first_line_end(&fields) {
            None => Ok(Rule { fields }),
            Some(at) => Err(RuleFault::LineEnd {
                field: at as u32 + 1,
            }),
        }
    }

    /// How many texts it has.
    pub fn len(&self) -> u32
        ensures { result ≡ length self.now }
    {
        self.fields.len() as u32
    }

    /// The text at a place, counted from 0.
    pub fn field(&self, at: u32) -> &[u8]
        requires { at < length self.now }
        ensures value { slice_get self.now at ≡ Some result.now }
        ensures whole_line { has_line_end result.now ≡ false }
        ensures utf8 { IsUtf8 result.now }
    {
        self.fields[at as usize].bytes()
    }

    /// The text at a place, counted from 0, as a text.
    pub fn text(&self, at: u32) -> &str
        requires { at < length self.now }
        ensures value { slice_get self.now at ≡ Some result.now }
        ensures whole_line { has_line_end result.now ≡ false }
    {
        self.fields[at as usize].as_str()
    }

    /// Its texts.
    pub fn fields(&self) -> &[Text]
        ensures value { result.now ≡ self.now }
        ensures fields { AreFields result.now }
    {
        &self.fields
    }

    /// Its texts as a `Vec`. It takes no memory.
    pub fn into_fields(self) -> Vec<Text>
        ensures value { result.items ≡ self }
        ensures fields { AreFields result.items }
    {
        self.fields
    }

    /// The place of the first text that is this name, counted from 0: where a list of columns has that column.
    pub fn place_of(&self, name: &[u8]) -> Option<u32>
        ensures { result ≡ position (bytes_eq name.now) self.now }
    {
        let at = self.fields.iter().position(|field| name == field.bytes())?;
        Some(at as u32)
    }

    /// The same rule once more.
    pub fn copy(&self, alloc: Global) -> Result<Rule, NoMemory>
        ensures { IfOk result (λ copy. copy ≡ self.now) }
    {
        let mut fields = Vec::with_capacity(alloc, self.fields.len())?;
        for field in &self.fields {
            fields.push(Text::from_str(alloc, field.as_str())?)?;
        }
        Ok(Rule { fields })
    }
}

impl Share for Rule {}

impl PartialEq for Rule {
    ghost eq = { pointwise (pointwise nat_eq) };

    ghost laws = { partial_equiv_from_equiv (lists_equiv nat_list_eq_equiv) };

    fn eq(&self, other: &Rule) -> bool {
        self.fields == other.fields
    }
}

impl Eq for Rule {
    ghost laws = { lists_equiv nat_list_eq_equiv };
}

impl Hash for Rule {
    ghost hash_input = { fed.slice fed.str };

    ghost respects_eq = { (fed.items_Alike (fed.same_Alike fed.str bytes_eq-Decides)).fed };

    fn hash<H: Hasher>(&self, state: &mut H) {
        self.fields.hash(state);
    }
}

// The place of the first text that holds CR or LF.
fn first_line_end(fields: &[Text]) -> Option<usize>
    ensures { result ≡ position has_line_end fields.now }
{
    fields.iter().position(|field| has_line_end(field.as_str()))
}
