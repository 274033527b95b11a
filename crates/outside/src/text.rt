ghost use Rattle.std.specs.Prelude.{◌≡◌, IfOk, IsUtf8, OnErr, OnOk, nat_eq, string_bytes};
ghost use Rattle.std.specs.Cmp.Lexicographic.{nat_list_eq_equiv, pointwise};
ghost use Rattle.std.specs.Cmp.Rules.{hashing};
ghost use Rattle.std.specs.Cmp.{partial_equiv_from_equiv};
ghost use Rattle.std.specs.Hash as fed;
ghost use Rattle.std.proofs.Common.{rules};

use crate::fault::NoMemory;
use crate::share::Share;
use arrayvec::ArrayString;
use std::alloc::Global;
use std::hash::{Hash, Hasher};
use std::marker::Model;

// How many bytes lie in the text itself at most.
const SHORT: usize = 24;

/// A text: bytes that are UTF-8. Contracts see its bytes. One of at most 24 bytes lies in its own place.
#[derive(Drop)]
pub struct Text {
    held: Held,
}

// Where the bytes of a text lie: in the text itself, or in memory of their own.
#[derive(Drop)]
enum Held {
    Short(ArrayString<24>),
    Long(String),
}

impl Model for Text {
    ghost use Rattle.std.specs.Prelude.{List, ℕ};
    ghost use Rattle.outside.specs.Helps.Held.{held_bytes};

    ghost Value = { List ℕ };

    ghost view = { λ t. held_bytes t.held };
}

impl Text {
    /// A copy of a text. One of at most 24 bytes takes no memory.
    pub fn from_str(alloc: Global, text: &str) -> Result<Text, NoMemory>
        ensures { IfOk result (λ copy. copy ≡ text.now) }
    {
        let held = match ArrayString::from(text) {
            Ok(short) => Held::Short(short),
            Err(_) => Held::Long(String::from_str(alloc, text)?),
        };
        Ok(Text { held })
    }

    /// Puts another text in the place of this one, which is copied there. Memory is taken for one of more than 24 bytes that is longer
    /// than each that stood here before. Where memory runs out the text stays as it was.
    #[inline(always)]
    pub fn set(&mut self, alloc: Global, text: &str) -> Result<(), NoMemory>
        ensures set { OnOk result (self.new ≡ text.now) }
        ensures same { OnErr result (self.new ≡ self.old) }
    {
        match &mut self.held {
            Held::Long(long) => return replace(long, text),
            Held::Short(short) => {
                if text.len() <= SHORT {
                    short.clear();
                    short.push_str(text);
                    return Ok(());
                }
            }
        }
        *self = Text::from_str(alloc, text)?;
        Ok(())
    }

    /// This text. It takes no memory.
    pub fn from_string(text: String) -> Text
        ensures { result ≡ string_bytes text }
    {
        Text {
            held: Held::Long(text),
        }
    }

    /// The bytes of the text, which are UTF-8.
    pub fn bytes(&self) -> &[u8]
        ensures value { result.now ≡ self.now }
        ensures utf8 { IsUtf8 result.now }
    {
        self.as_str().as_bytes()
    }

    /// The text as it is.
    pub fn as_str(&self) -> &str
        ensures { result.now ≡ self.now }
    {
        match &self.held {
            Held::Short(text) => text.as_str(),
            Held::Long(text) => text.as_str(),
        }
    }
}

// Puts another text in the place of one, and into its memory where it has room there.
fn replace(long: &mut String, text: &str) -> Result<(), NoMemory>
    ensures set { OnOk result (string_bytes long.new ≡ text.now) }
    ensures same { OnErr result (string_bytes long.new ≡ string_bytes long.old) }
{
    long.reserve(text.len().saturating_sub(long.len()))?;
    long.clear();
    long.push_str(text)?;
    Ok(())
}

impl Share for Text {}

impl PartialEq for Text {
    ghost eq = { pointwise nat_eq };

    ghost laws = { partial_equiv_from_equiv nat_list_eq_equiv };

    fn eq(&self, other: &Text) -> bool {
        self.as_str() == other.as_str()
    }
}

impl Eq for Text {
    ghost laws = { nat_list_eq_equiv };
}

impl Hash for Text {
    ghost hash_input = { fed.str };

    ghost respects_eq = { Prim.search (hashing, rules) };

    fn hash<H: Hasher>(&self, state: &mut H) {
        self.as_str().hash(state);
    }
}
