ghost use Rattle.std.specs.Prelude.{◌≡◌, ◌+◌, ◌≤◌, length};
ghost use Rattle.policy_table.specs.Filters.{fits_filter};

use perm_base::Rule;

/// Whether a rule fits a filter: from the column `at` on, counted from 0, each value that is not empty equals the rule's
/// field (Casbin, GetFilteredPolicy). It takes no memory.
pub fn fits_filter(rule: &Rule, at: u32, values: &Rule) -> bool
    requires { at + length values.now ≤ length rule.now }
    ensures { result ≡ fits_filter rule.now at values.now }
{
    // The length of a rule is a `u32`, and so is each place in it.
    prove!(at <= rule.len());
    for place in 0..values.len() {
        let value = values.field(place);
        if !value.is_empty() && value != rule.field(at + place) {
            return false;
        }
    }
    true
}
