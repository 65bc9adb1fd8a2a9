//! The domains in which names lie, of which admission knows how many questions are under way.
ghost use Rattle.std.specs.Prelude.{◌≡◌};
ghost use Rattle.server.specs.Domains.{domain_of};

use dname::{Name, Suffix};

// Labels of a domain's name at most.
const LABELS: usize = 2;

/// The domain in which a name lies, the last two labels of the name above it: `example.org` of `www.example.org` and of
/// `a.b.example.org`, `org` of `example.org`.
pub(crate) fn domain_of(name: &Name) -> Suffix<'_>
    ensures { result ≡ domain_of name.now }
{
    let mut domain = name.suffix();
    domain.ascend();
    for _ in 0..name.labels().saturating_sub(LABELS + 1) {
        domain.ascend();
    }
    domain
}
