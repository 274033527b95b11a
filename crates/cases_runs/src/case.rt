use crate::field::Field;
use anyhow::{Result, bail};
use std::alloc::Global;

/// A case: its name, and what it says.
#[derive(Drop)]
pub struct Case {
    /// The number of its first line in the list.
    pub line: u32,
    pub name: String,
    pub fields: Vec<Field>,
}

impl Case {
    /// Refuses a case that has another key than these, or a text below one of the first.
    pub fn check_keys(&self, without_text: &[&str], with_text: &[&str]) -> Result<()> {
        for field in &self.fields {
            let key = field.key.as_str();
            let is_plain = field.text.is_empty() && is_among(without_text, key);
            if !is_plain && !is_among(with_text, key) {
                bail!("line {}: no such field", field.line);
            }
        }
        Ok(())
    }

    /// Whether it has a field of this key.
    pub fn has_field(&self, key: &str) -> bool {
        self.fields.iter().any(|field| field.key.as_str() == key)
    }

    /// The words behind a key, wherever it stands.
    pub fn words(&self, alloc: Global, key: &str) -> Result<Vec<String>> {
        let mut words = Vec::new(alloc);
        for field in &self.fields {
            if field.key.as_str() == key {
                for word in field.rest.as_str().split_whitespace() {
                    words.push(String::from_str(alloc, word)?)?;
                }
            }
        }
        Ok(words)
    }

    /// The numbers behind a key.
    pub fn numbers(&self, alloc: Global, key: &str) -> Result<Vec<u32>> {
        let mut numbers = Vec::new(alloc);
        for word in &self.words(alloc, key)? {
            numbers.push(word.as_str().parse::<u32>()?)?;
        }
        Ok(numbers)
    }

    /// The text below a key.
    pub fn text(&self, alloc: Global, key: &str) -> Result<Vec<u8>> {
        let mut text = Vec::new(alloc);
        for field in &self.fields {
            if field.key.as_str() == key {
                text.extend_from_slice(&field.text)?;
            }
        }
        Ok(text)
    }
}

fn is_among(keys: &[&str], key: &str) -> bool {
    keys.iter().any(|known| *known == key)
}
