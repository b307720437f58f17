// Texts that are no one axiom. Faults of ontologies are rows of the program.
use dl_lex::Keyword;
use dl_names::NameSet;
use dl_owl::{Construct, OwlFault, read_axiom};
use std::alloc::Global;

/// Texts that are no one axiom, and their faults.
const NO_AXIOMS: &[(&str, OwlFault)] = &[
    ("", OwlFault::Syntax { at: 0 }),
    ("Ontology()", OwlFault::Syntax { at: 0 }),
    ("Prefix(a:=<b>)", OwlFault::Syntax { at: 0 }),
    ("Import(<o>)", OwlFault::Syntax { at: 0 }),
    (
        "HasKey(<A> () ())",
        OwlFault::NotQl {
            at: 0,
            what: Construct::Keyword(Keyword::HasKey),
        },
    ),
    (
        "SubClassOf(<A> <B>) SubClassOf(<A> <B>)",
        OwlFault::Syntax { at: 20 },
    ),
    ("SubClassOf(<A> :B)", OwlFault::PrefixUnknown { at: 15 }),
    ("SubClassOf(<A> owl:B)", OwlFault::Reserved { at: 15 }),
];

/// Whether each text is no axiom, with its fault.
fn are_no_axioms(alloc: Global, rows: &[(&str, OwlFault)]) -> bool {
    for (text, fault) in rows {
        let mut names = NameSet::new(alloc);
        match read_axiom(alloc, text.as_bytes(), &mut names) {
            Ok(_) => return false,
            Err(found) => {
                if found != *fault {
                    return false;
                }
            }
        }
    }
    true
}

#[test]
fn no_axioms_are_refused(rt: HostRuntime) {
    assert!(rt; are_no_axioms(rt.alloc(), NO_AXIOMS));
}
