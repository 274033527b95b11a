ghost use Rattle.std.specs.Prelude.{◌≡◌, ◌-◌, ◌<◌, ◌≤◌, [], false, IfNone, IfSome, is_some};
ghost use Rattle.std.specs.List.{list_any, slice_index_or};
ghost use Rattle.std.specs.Str.{bytes_eq};
ghost use Rattle.matcher_read.specs.Calls.{relation_names};
ghost use Rattle.model_conf.specs.Sections.{has_key, is_section};
ghost use Rattle.model_conf.specs.Helps.Steps.{section_text};

/// A section of a model.
#[derive(Clone, Copy)]
pub(crate) enum Section {
    Request,
    Policy,
    Roles,
    Effect,
    Matchers,
}

/// The section of a name.
#[tactic(auto, unfolding(crate::specs::Sections::is_section))]
pub(crate) fn section_named(name: &str) -> Option<Section>
    ensures known { is_some result ≡ is_section name.now }
    ensures found { IfSome result (λ section. section_text section ≡ name.now) }
{
    if name == "request_definition" {
        Some(Section::Request)
    } else if name == "policy_definition" {
        Some(Section::Policy)
    } else if name == "role_definition" {
        Some(Section::Roles)
    } else if name == "policy_effect" {
        Some(Section::Effect)
    } else if name == "matchers" {
        Some(Section::Matchers)
    } else {
        None
    }
}

/// The key of a section that is written so.
pub(crate) fn key_named(section: Section, key: &str) -> Option<&'static str>
    ensures known { is_some result ≡ has_key (section_text section) key.now }
    ensures found { IfSome result (λ name. name.now ≡ key.now) }
{
    match section {
        Section::Request => same_text("r", key),
        Section::Policy => same_text("p", key),
        Section::Roles => Some(relation_name(relation_named(key)?)),
        Section::Effect => same_text("e", key),
        Section::Matchers => same_text("m", key),
    }
}

/// The number of the relation that is written so.
pub(crate) fn relation_named(key: &str) -> Option<u8>
    ensures none { IfNone result (list_any (bytes_eq key.now) relation_names ≡ false) }
    ensures within { IfSome result (λ number. (0 < number) × (number ≤ 8)) }
    ensures found { IfSome result (λ number.
        key.now ≡ slice_index_or relation_names (number - 1) []) }
{
    for number in 1..9 {
        if relation_name(number) == key {
            return Some(number);
        }
    }
    None
}

/// How the relation of a number is written.
pub(crate) fn relation_name(number: u8) -> &'static str
    requires { (0 < number) × (number ≤ 8) }
    ensures { result.now ≡ slice_index_or relation_names (number - 1) [] }
{
    match number {
        1 => "g",
        2 => "g2",
        3 => "g3",
        4 => "g4",
        5 => "g5",
        6 => "g6",
        7 => "g7",
        _ => "g8",
    }
}

// The name, where the text is the same.
fn same_text(name: &'static str, text: &str) -> Option<&'static str>
    ensures known { is_some result ≡ bytes_eq text.now name.now }
    ensures found { IfSome result (λ same. same.now ≡ text.now) }
{
    if text == name { Some(name) } else { None }
}
