ghost use Rattle.std.specs.Prelude.{◌≡◌, None, option_copied, option_map};

use std::marker::Model;

/// Places of rules that the caller of a call knows of: those of all rules of the call's table that fit its filter or have its name,
/// and of all rules of p whose subject that name is. Others may be among them. What is not known is looked for in the table.
#[derive(Drop)]
pub struct Known {
    rules: Option<Vec<u32>>,
    subjects: Option<Vec<u32>>,
}

impl Model for Known {
    ghost use Rattle.std.specs.Prelude.{option_map};
    ghost use Rattle.edit_calls.specs.Found.{KnownPlaces};

    ghost Value = { KnownPlaces };

    ghost view = { λ k. record {
      rules = option_map (λ places. places.items) k.rules;
      subjects = option_map (λ places. places.items) k.subjects;
    } };
}

impl Known {
    /// Nothing is known.
    pub fn none() -> Known
        ensures { result ≡ record { rules = None; subjects = None } }
    {
        Known {
            rules: None,
            subjects: None,
        }
    }

    /// These places, where they are known.
    pub fn new(rules: Option<Vec<u32>>, subjects: Option<Vec<u32>>) -> Known
        ensures { result ≡ record {
          rules = option_map (λ places. places.items) rules;
          subjects = option_map (λ places. places.items) subjects;
        } }
    {
        Known { rules, subjects }
    }

    /// Those of the call's table.
    pub(crate) fn rules(&self) -> Option<&[u32]>
        ensures { option_copied result ≡ self.now.rules }
    {
        slice_of(&self.rules)
    }

    /// Those of p.
    pub(crate) fn subjects(&self) -> Option<&[u32]>
        ensures { option_copied result ≡ self.now.subjects }
    {
        slice_of(&self.subjects)
    }
}

// Places as a slice.
fn slice_of(places: &Option<Vec<u32>>) -> Option<&[u32]>
    ensures { option_copied result ≡ option_map (λ places. places.items) places.now }
{
    match places {
        Some(places) => Some(places.as_slice()),
        None => None,
    }
}
