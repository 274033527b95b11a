ghost use Rattle.std.specs.Prelude.{◌≡◌, ◌↔◌, ◌≤◌, IfOk, IsTrue, length, nat_lt, take};
ghost use Rattle.std.specs.List.{list_all};
ghost use Rattle.policy_index.specs.Hashes.{most_front, short_front};
ghost use Rattle.policy_index.specs.Keys.{front_of, is_below, is_whole, of_column, tells_whole};

use key_match::{glob_match_front, key_match_front, key_match2_front, key_match3_front};
use outside::{NoMemory, Share};
use std::alloc::Global;
use std::marker::Model;

// Of a front so many bytes count.
const MOST_FRONT: usize = 255;

/// The function that a pattern is for, as far as the fronts of its patterns go.
#[derive(Clone, Copy, Debug, PartialEq, Eq)]
pub enum FrontKind {
    /// `keyMatch`
    Star,
    /// `keyMatch2`
    Colon,
    /// `keyMatch3`, `keyMatch4`
    Brace,
    /// `keyMatch5`
    CutBrace,
    /// `globMatch`
    Glob,
}

/// A column of patterns, counted from 0, and the function that these are for.
#[derive(Clone, Copy, Debug, PartialEq, Eq)]
pub struct FrontColumn {
    pub column: u32,
    pub kind: FrontKind,
}

/// By what rows are found: the texts of some columns, counted from 0, and the front of a pattern in one more.
#[derive(Drop)]
pub struct RowKey {
    columns: Vec<u32>,
    pattern: Option<FrontColumn>,
}

impl Model for RowKey {
    ghost use Rattle.policy_index.specs.Keys.{KeyParts};

    ghost Value = { KeyParts };

    ghost view = { λ k. record { columns = k.columns.items; pattern = k.pattern } };
}

impl RowKey {
    /// That of these columns and of a column of patterns, or none.
    pub fn new(columns: Vec<u32>, pattern: Option<FrontColumn>) -> RowKey
        ensures { result ≡ record { columns = columns.items; pattern = pattern } }
    {
        RowKey { columns, pattern }
    }

    /// That of one column.
    pub fn of_column(alloc: Global, column: u32) -> Result<RowKey, NoMemory>
        ensures { IfOk result (λ key. key ≡ of_column column) }
    {
        let mut columns = Vec::new(alloc);
        columns.push(column)?;
        Ok(RowKey {
            columns,
            pattern: None,
        })
    }

    /// The columns whose texts count.
    pub fn columns(&self) -> &[u32]
        ensures { result.now ≡ self.now.columns }
    {
        self.columns.as_slice()
    }

    /// The column whose pattern counts, or none.
    pub fn pattern(&self) -> Option<FrontColumn>
        ensures { result ≡ self.now.pattern }
    {
        self.pattern
    }

    /// Whether it is that of one column.
    pub fn is_column(&self, column: u32) -> bool
        ensures { IsTrue result ↔ (self.now ≡ of_column column) }
    {
        self.pattern.is_none() && self.columns.len() == 1 && self.columns[0] == column
    }

    /// Whether each of its columns is below a number of columns.
    pub fn is_below(&self, count: u32) -> bool
        ensures { result ≡ is_below count self.now }
    {
        if !are_below(self.columns.as_slice(), count) {
            return false;
        }
        match self.pattern {
            Some(front) => front.column < count,
            None => true,
        }
    }

    /// The same key once more.
    pub fn copy(&self, alloc: Global) -> Result<RowKey, NoMemory>
        ensures { IfOk result (λ copy. copy ≡ self.now) }
    {
        Ok(RowKey {
            columns: Vec::from_slice(alloc, self.columns.as_slice())?,
            pattern: self.pattern,
        })
    }
}

impl Share for RowKey {}

// Whether each of these columns is below a number of columns.
fn are_below(columns: &[u32], count: u32) -> bool
    ensures { result ≡ list_all (λ column. nat_lt column count) columns.now }
{
    for column in columns {
        if *column >= count {
            return false;
        }
    }
    true
}

// The front of a pattern.
fn front_of(kind: FrontKind, pattern: &[u8]) -> &[u8]
    ensures { result.now ≡ front_of kind pattern.now }
{
    match kind {
        FrontKind::Star => key_match_front(pattern),
        FrontKind::Colon => key_match2_front(pattern),
        FrontKind::Brace | FrontKind::CutBrace => key_match3_front(pattern),
        FrontKind::Glob => glob_match_front(pattern),
    }
}

// Whether a text that fits a pattern which is all front is the pattern.
fn tells_whole(kind: FrontKind) -> bool
    ensures { result ≡ tells_whole kind }
{
    match kind {
        FrontKind::CutBrace => false,
        FrontKind::Star | FrontKind::Colon | FrontKind::Brace | FrontKind::Glob => true,
    }
}

/// Whether nothing but the pattern fits it.
pub(crate) fn is_whole(kind: FrontKind, pattern: &[u8]) -> bool
    ensures { result ≡ is_whole kind pattern.now }
{
    tells_whole(kind) && front_of(kind, pattern) == pattern
}

/// The front of a pattern, as far as it counts.
pub(crate) fn short_front(kind: FrontKind, pattern: &[u8]) -> &[u8]
    ensures value { result.now ≡ short_front kind pattern.now }
    ensures few { length result.now ≤ 255 }
{
    let front = front_of(kind, pattern);
    shortened(front)
}

/// A text as far as it counts for fronts.
#[tactic(auto, using(crate::proofs::HashLemmas::short_whole))]
pub(crate) fn shortened(text: &[u8]) -> &[u8]
    ensures value { result.now ≡ take most_front text.now }
    ensures few { length result.now ≤ 255 }
{
    if text.len() <= MOST_FRONT {
        return text;
    }
    &text[..MOST_FRONT]
}
