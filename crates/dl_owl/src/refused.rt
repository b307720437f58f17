// Keywords that may not stand where an axiom or a class expression is expected, and the faults that they are.
ghost use Rattle.std.specs.Prelude.{◌≡◌};
ghost use Rattle.dl_owl.specs.Causes.{fault_of};
ghost use Rattle.dl_owl.specs.Refused.{refused_sub, refused_sup, refused_axiom};

use crate::fault::{Construct, OwlFault};
use dl_lex::Keyword;

/// The fault of a keyword where a class expression of a right side is expected.
pub(crate) fn refused_sup(word: Keyword, at: usize) -> OwlFault
    ensures { result ≡ fault_of (refused_sup word) at }
{
    let what = Construct::Keyword(word);
    match word {
        Keyword::ObjectUnionOf
        | Keyword::ObjectOneOf
        | Keyword::ObjectAllValuesFrom
        | Keyword::ObjectHasValue
        | Keyword::ObjectHasSelf
        | Keyword::ObjectMinCardinality
        | Keyword::ObjectMaxCardinality
        | Keyword::ObjectExactCardinality
        | Keyword::DataAllValuesFrom
        | Keyword::DataHasValue
        | Keyword::DataMinCardinality
        | Keyword::DataMaxCardinality
        | Keyword::DataExactCardinality => OwlFault::NotQl { at, what },
        Keyword::DataSomeValuesFrom => OwlFault::LeftOut { at, what },
        _ => OwlFault::Syntax { at },
    }
}

/// The fault of a keyword where one of a left side is expected.
pub(crate) fn refused_sub(word: Keyword, at: usize) -> OwlFault
    ensures { result ≡ fault_of (refused_sub word) at }
{
    match word {
        Keyword::ObjectIntersectionOf | Keyword::ObjectComplementOf => OwlFault::NotQl {
            at,
            what: Construct::Keyword(word),
        },
        _ => refused_sup(word, at),
    }
}

/// The fault of a keyword where an axiom is expected.
pub(crate) fn refused_axiom(word: Keyword, at: usize) -> OwlFault
    ensures { result ≡ fault_of (refused_axiom word) at }
{
    let what = Construct::Keyword(word);
    match word {
        Keyword::FunctionalObjectProperty
        | Keyword::InverseFunctionalObjectProperty
        | Keyword::TransitiveObjectProperty
        | Keyword::FunctionalDataProperty
        | Keyword::DisjointUnion
        | Keyword::HasKey
        | Keyword::SameIndividual
        | Keyword::NegativeObjectPropertyAssertion
        | Keyword::NegativeDataPropertyAssertion => OwlFault::NotQl { at, what },
        Keyword::ReflexiveObjectProperty
        | Keyword::DatatypeDefinition
        | Keyword::SubDataPropertyOf
        | Keyword::EquivalentDataProperties
        | Keyword::DisjointDataProperties
        | Keyword::DataPropertyDomain
        | Keyword::DataPropertyRange
        | Keyword::DataPropertyAssertion => OwlFault::LeftOut { at, what },
        _ => OwlFault::Syntax { at },
    }
}
