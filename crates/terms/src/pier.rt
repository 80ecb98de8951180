// Whether a term is pier sensitive: whether its Jacobian turns with the side of the pier.

ghost use Rattle.std.specs.Prelude.{◌≡◌};
ghost use Rattle.terms.specs.Pier.{pier_sensitive_of};

use crate::TermKind;
use equatorial::EquatorialTerm;
use harmonic::ResultType;

pub fn pier_sensitive(kind: TermKind) -> bool
    ensures { result ≡ pier_sensitive_of kind }
{
    match kind {
        TermKind::Equatorial(t) => matches!(
            t,
            EquatorialTerm::ID | EquatorialTerm::CH | EquatorialTerm::NP
        ),
        TermKind::Harmonic(h) => matches!(h.result, ResultType::P),
    }
}
