ghost use Rattle.std.specs.Prelude.{◌≡◌, ◌≤◌, ◌<◌, List, length, true};
ghost use Rattle.policy_index.specs.Hashes.{fields_hash, front_mark, mark_behind, mark_of, pattern_mark, whole_hash};
ghost use Rattle.policy_index.specs.Keys.{is_below};

use crate::hashes::{hash_front, hash_of_fields, hash_whole};
use crate::key::{FrontColumn, FrontKind, RowKey, is_whole, short_front};
use perm_base::Rule;

/// What an index keeps of a row: the hash by which it is found, and the length of the front of its pattern, where it is found
/// by that.
#[derive(Clone, Copy)]
pub struct Mark {
    pub hash: u64,
    pub front: Option<u8>,
}

/// What is kept of a rule.
pub(crate) fn mark_of(key: &RowKey, rule: &Rule) -> Mark
    requires { is_below (length rule.now) key.now ≡ true }
    ensures { result ≡ mark_of key.now rule.now }
{
    let hash = hash_of_fields(key.columns(), rule);
    match key.pattern() {
        Some(front) => pattern_mark(front.kind, hash, rule.field(front.column)),
        None => Mark { hash, front: None },
    }
}

// What is kept of a pattern behind a hash.
fn pattern_mark(kind: FrontKind, hash: u64, pattern: &[u8]) -> Mark
    ensures { result ≡ pattern_mark kind hash pattern.now }
{
    if is_whole(kind, pattern) {
        return Mark {
            hash: hash_whole(hash, pattern),
            front: None,
        };
    }
    front_mark(hash, short_front(kind, pattern))
}

// What is kept of a front behind a hash.
fn front_mark(hash: u64, front: &[u8]) -> Mark
    requires { length front.now ≤ 255 }
    ensures { result ≡ front_mark hash front.now }
{
    Mark {
        hash: hash_front(hash, front),
        front: Some(front.len() as u8),
    }
}
