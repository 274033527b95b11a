use arrayvec::ArrayString;
use itoa::Buffer;
use std::marker::Model;

/// The front of a line: numbers and words, which lie in it until they are pushed at once. Contracts see its bytes.
#[derive(Drop)]
pub(crate) struct Front {
    text: ArrayString<64>,
}

impl Model for Front {
    ghost use Rattle.std.specs.Prelude.{List, ℕ};

    ghost Value = { List ℕ };

    ghost view = { λ f. f.text.bytes };
}

impl Front {
    ghost use Rattle.std.specs.Prelude.{◌≡◌, ◌+◌, ◌≤◌, ◌++◌, [], decimal, length};

    /// One without bytes.
    pub(crate) fn new() -> Front
        ensures { result ≡ [] }
    {
        Front {
            text: ArrayString::new(),
        }
    }

    /// Puts a word behind the others.
    pub(crate) fn push(&mut self, word: &str)
        requires { length self.old + length word.now ≤ 64 }
        ensures { self.new ≡ self.old ++ word.now }
    {
        self.text.push_str(word);
    }

    /// Puts a number behind the others, in decimal digits.
    pub(crate) fn push_number(&mut self, number: u32)
        requires { length self.old + 10 ≤ 64 }
        ensures bytes { self.new ≡ self.old ++ decimal number }
        ensures few { length self.new ≤ length self.old + 10 }
    {
        let mut digits = Buffer::new();
        self.text.push_str(digits.format(number));
    }

    /// The bytes as a text.
    pub(crate) fn as_str(&self) -> &str
        ensures { result.now ≡ self.now }
    {
        self.text.as_str()
    }
}
