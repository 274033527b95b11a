ghost use Rattle.std.specs.Prelude.{◌≡◌, ◌<◌, ◌^◌, ◌++◌, ◌∷◌, [], List, ℕ, length, nat_lt, true};
ghost use Rattle.std.specs.List.{list_all};
ghost use Rattle.policy_index.specs.Hashes.{IsKeyOf, bytes_hash, fields_hash, front_hash, hash_step, start_hash, text_hash, whole_hash};

use perm_base::Rule;

const START: u64 = 14_695_981_039_346_656_037;

const FACTOR: u64 = 1_099_511_628_211;

// Its square, as far as 64 bits hold it.
const SQUARE: u64 = 956_575_116_354_345;

// And the square of that.
const FOURTH: u64 = 11_527_715_348_014_283_921;

// Signs of what follows, which are no bytes.
const TEXT: u64 = 256;

const WHOLE: u64 = 257;

const FRONT: u64 = 258;

/// The hash of no texts.
pub fn start_hash() -> u64
    ensures start { result ≡ start_hash }
    ensures none { IsKeyOf result [] }
{
    START
}

/// A hash with one text more.
pub fn hash_with(hash: u64, text: &[u8]) -> u64
    ensures value { result ≡ text_hash hash text.now }
    ensures more { (texts : List (List ℕ)) → IsKeyOf hash texts
        → IsKeyOf result (texts ++ text.now ∷ []) }
{
    hash_bytes(hash_step(hash, TEXT), text)
}

/// A hash with a whole text behind it.
pub(crate) fn hash_whole(hash: u64, text: &[u8]) -> u64
    ensures { result ≡ whole_hash hash text.now }
{
    hash_bytes(hash_step(hash, WHOLE), text)
}

/// A hash with a front behind it.
pub(crate) fn hash_front(hash: u64, front: &[u8]) -> u64
    ensures { result ≡ front_hash hash front.now }
{
    hash_bytes(before_front(hash), front)
}

/// A hash before the bytes of a front.
pub(crate) fn before_front(hash: u64) -> u64
    ensures { result ≡ front_hash hash [] }
{
    hash_step(hash, FRONT)
}

/// A hash with a byte more.
pub(crate) fn hash_byte(hash: u64, byte: u8) -> u64
    ensures { result ≡ hash_step hash byte }
{
    hash_step(hash, u64::from(byte))
}

/// The hash of a rule's texts in columns.
pub(crate) fn hash_of_fields(columns: &[u32], rule: &Rule) -> u64
    requires { list_all (λ column. nat_lt column (length rule.now)) columns.now ≡ true }
    ensures { result ≡ fields_hash columns.now rule.now }
{
    let mut hash = START;
    for column in columns {
        hash = hash_with(hash, rule.field(*column));
    }
    hash
}

// A hash with further bytes.
fn hash_bytes(hash: u64, bytes: &[u8]) -> u64
    ensures { result ≡ bytes_hash hash bytes.now }
{
    let mut so_far = hash;
    let mut at = 0;
    'fours: while bytes.len() - at >= 4 {
        let next = at + 2;
        so_far = hash_four(
            so_far,
            bytes[at],
            bytes[at + 1],
            bytes[next],
            bytes[next + 1],
        );
        at = next + 2;
    }
    hash_pairs(so_far, &bytes[at..])
}

// A hash with further bytes, two at a time.
fn hash_pairs(hash: u64, bytes: &[u8]) -> u64
    ensures { result ≡ bytes_hash hash bytes.now }
{
    let mut so_far = hash;
    let mut at = 0;
    'pairs: while bytes.len() - at >= 2 {
        so_far = hash_two(so_far, bytes[at], bytes[at + 1]);
        at += 2;
    }
    if at < bytes.len() {
        return hash_byte(so_far, bytes[at]);
    }
    so_far
}

// A hash with two bytes more, of which one product waits for the hash before.
fn hash_two(hash: u64, first: u8, second: u8) -> u64
    ensures { result ≡ hash_step (hash_step hash first) second }
{
    let both = (first as u64 + 1) * FACTOR + (second as u64 + 1);
    hash.wrapping_mul(SQUARE).wrapping_add(both)
}

// A hash with four bytes more, of which one product waits for the hash before.
fn hash_four(hash: u64, first: u8, second: u8, third: u8, fourth: u8) -> u64
    ensures { result
        ≡ hash_step (hash_step (hash_step (hash_step hash first) second) third) fourth }
{
    let front = (first as u64 + 1) * FACTOR + (second as u64 + 1);
    let back = (third as u64 + 1) * FACTOR + (fourth as u64 + 1);
    let both = front.wrapping_mul(SQUARE).wrapping_add(back);
    hash.wrapping_mul(FOURTH).wrapping_add(both)
}

// A hash with a byte or a sign more.
#[tactic(auto, unfolding(crate::specs::Hashes::hash_step))]
fn hash_step(hash: u64, byte: u64) -> u64
    requires { byte < 2 ^ 16 }
    ensures { result ≡ hash_step hash byte }
{
    hash.wrapping_mul(FACTOR).wrapping_add(byte + 1)
}
