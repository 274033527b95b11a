/// How the rules that match a request settle its answer (Casbin, policy effects).
#[derive(Clone, Copy, Debug, PartialEq, Eq)]
pub enum Effect {
    /// `some(where (p.eft == allow))`: allow where a rule that matches allows, else deny.
    AllowOverride,
    /// `!some(where (p.eft == deny))`: deny where a rule that matches denies, else allow.
    DenyOverride,
    /// `some(where (p.eft == allow)) && !some(where (p.eft == deny))`: deny where a rule that matches denies; else
    /// allow where one allows; else deny.
    AllowAndDeny,
    /// `priority(p.eft) || deny`: the effect of the first rule that matches with allow or deny, else deny.
    Priority,
    /// `subjectPriority(p.eft) || deny`: the same, over rules that are taken by falling depth of their subjects.
    SubjectPriority,
}
