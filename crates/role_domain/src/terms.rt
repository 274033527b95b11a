//! How a relation's names are compared.

ghost use Rattle.std.specs.Prelude.{◌≡◌};
ghost use Rattle.role_domain.specs.Relations.{fit_of, terms_of};

use outside::Share;
use perm_base::{Fit, RoleShape};

/// How the names and the domains of a relation are compared, and the hierarchy limit.
#[derive(Clone, Copy)]
pub(crate) struct Terms {
    pub(crate) names: Fit,
    pub(crate) domains: Fit,
    pub(crate) limit: u8,
}

impl Share for Terms {}

/// The terms of a relation of a shape.
pub(crate) fn terms_of(shape: RoleShape, limit: u8) -> Terms
    ensures { result ≡ terms_of shape limit }
{
    Terms {
        names: shape.names,
        domains: fit_of(shape),
        limit,
    }
}

// How domains are compared. Where rows have none, each has the empty text, which is compared byte by
// byte.
fn fit_of(shape: RoleShape) -> Fit
    ensures { result ≡ fit_of shape }
{
    if shape.with_domain {
        shape.domains
    } else {
        Fit::Exact
    }
}
