//! A stack of a fixed number of places.

ghost use Rattle.std.specs.Prelude.{◌≡◌, ◌<◌, ◌≤◌, ◌-◌, [], ◌∷◌, length};

use perm_value::View;
use std::marker::Model;

/// A stack of at most `N` values, which lie in it. Contracts see them, the top first. It takes no memory.
#[derive(Drop)]
pub struct FixedStack<T, const N: usize> {
    places: [T; N],
    // The place of the top value; they lie from there to the end.
    top: usize,
}

/// A stack of values over borrowed parts.
pub type Stack<'a, const N: usize> = FixedStack<View<'a>, N>;

/// A stack with room for each matcher that a model holds.
pub type WideStack<'a> = Stack<'a, 1024>;

impl<T, const N: usize> Model for FixedStack<T, N> {
    ghost use Rattle.std.specs.Prelude.{List, ◌≡◌, ◌≤◌, drop, length};

    ghost Value = { List T };

    ghost view = { λ s. drop s.top s.places };

    ghost invariant = { λ s. (s.top ≤ N) × (length s.places ≡ N) };
}

impl<T: Copy, const N: usize> FixedStack<T, N> {
    // An empty stack, whose places hold this value.
    fn filled(value: T) -> FixedStack<T, N>
        ensures { result ≡ [] }
    {
        FixedStack {
            places: [value; N],
            top: N,
        }
    }

    /// How many values it holds.
    pub fn len(&self) -> usize
        ensures value { result ≡ length self.now }
        ensures few { result ≤ N }
    {
        N - self.top
    }

    /// Takes all values off.
    pub(crate) fn clear(&mut self)
        ensures { self.new ≡ [] }
    {
        self.top = N;
    }

    /// Puts a value on top.
    pub(crate) fn push(&mut self, value: T)
        requires { length self.old < N }
        ensures { self.new ≡ value ∷ self.old }
    {
        self.top -= 1;
        self.places[self.top] = value;
    }

    /// Takes the top value off.
    pub(crate) fn pop(&mut self) -> T
        requires { 0 < length self.old }
        ensures { self.old ≡ result ∷ self.new }
    {
        let value = self.places[self.top];
        self.top += 1;
        value
    }
}

impl<'a, const N: usize> FixedStack<View<'a>, N> {
    /// An empty stack.
    pub fn new() -> Stack<'a, N>
        ensures { result ≡ [] }
    {
        FixedStack::filled(View::Truth(false))
    }
}
