ghost use Rattle.std.specs.Prelude.{◌≡◌, ◌==◌, option_map};
ghost use Rattle.file_lint.specs.Near.{called_names, is_empty, is_near, is_near_rest, is_one, near_name, section_names};

// All functions.
const FUNCTIONS: [&str; 11] = [
    "keyMatch",
    "keyMatch2",
    "keyMatch3",
    "keyMatch4",
    "keyMatch5",
    "regexMatch",
    "ipMatch",
    "globMatch",
    "keyGet",
    "keyGet2",
    "keyGet3",
];

// All sections.
const SECTIONS: [&str; 5] = [
    "request_definition",
    "policy_definition",
    "role_definition",
    "policy_effect",
    "matchers",
];

/// The first function whose name a text nearly is.
pub(crate) fn near_function(text: &str) -> Option<&'static str>
    ensures { option_map (λ name. name.now) result ≡ near_name text.now called_names }
{
    for name in FUNCTIONS {
        if is_near(text.as_bytes(), name.as_bytes()) {
            return Some(name);
        }
    }
    None
}

/// The first section whose name a text nearly is.
pub(crate) fn near_section(text: &str) -> Option<&'static str>
    ensures { option_map (λ name. name.now) result ≡ near_name text.now section_names }
{
    for name in SECTIONS {
        if is_near(text.as_bytes(), name.as_bytes()) {
            return Some(name);
        }
    }
    None
}

// One byte is put in, taken away or another.
fn is_near(text: &[u8], other: &[u8]) -> bool
    ensures { result ≡ is_near text.now other.now }
{
    let mut rest = text;
    let mut left = other;
    while let Some((byte, behind)) = rest.split_first() {
        let Some((next, others)) = left.split_first() else {
            return is_empty(behind);
        };
        if !is_same(*byte, *next) {
            return is_near_rest(rest, behind, left, others);
        }
        rest = behind;
        left = others;
    }
    is_one(left)
}

fn is_same(byte: u8, other: u8) -> bool
    ensures { result ≡ (byte == other) }
{
    byte == other
}

fn is_empty(text: &[u8]) -> bool
    ensures { result ≡ is_empty text.now }
{
    let Some(_) = text.split_first() else {
        return true;
    };
    false
}

fn is_one(text: &[u8]) -> bool
    ensures { result ≡ is_one text.now }
{
    let Some((_, behind)) = text.split_first() else {
        return false;
    };
    is_empty(behind)
}

// The same for texts whose first bytes differ, and what stands behind these bytes.
fn is_near_rest(text: &[u8], behind: &[u8], other: &[u8], others: &[u8]) -> bool
    ensures { result ≡ is_near_rest text.now behind.now other.now others.now }
{
    behind == others || text == others || behind == other
}
