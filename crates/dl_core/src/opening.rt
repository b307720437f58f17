// Whether a commit opens an epoch: are the axioms, and is the signature, as before.
ghost use Rattle.std.specs.Prelude.{◌≡◌};
ghost use Rattle.std.specs.Cmp.Lexicographic.{slice_cmp};
ghost use Rattle.std.specs.Ordering.{is_eq};
ghost use Rattle.dl_terms.specs.Order.{axiom_cmp};
ghost use Rattle.dl_core.specs.Next.{same_signature as have_same_names};

use dl_terms::{Axiom, Signature, axioms_are_ordered};

/// Whether axioms are the same, one after the other. It takes no memory.
pub(crate) fn same_axioms(one: &[Axiom], two: &[Axiom]) -> bool
    ensures { result ≡ is_eq (slice_cmp axiom_cmp one.now two.now) }
{
    axioms_are_ordered();
    one.cmp(two).is_eq()
}

/// Whether signatures have the same names. It takes no memory.
pub(crate) fn same_signature(one: &Signature, two: &Signature) -> bool
    ensures { result ≡ have_same_names one.now two.now }
{
    one.classes.cmp(&two.classes).is_eq() && one.roles.cmp(&two.roles).is_eq()
}
