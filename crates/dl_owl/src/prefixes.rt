// The prefixes that an ontology declares.
ghost use Rattle.std.specs.Prelude.{◌≡◌, ◌∷◌, ◌++◌, [], None, Some, MatchOption, IfOk, OnOk};
ghost use Rattle.dl_owl.specs.Prefixes.{declared_iri, predefined};

use dl_terms::NoMemory;
use indexmap::IndexMap;
use std::alloc::Global;
use std::marker::Model;

/// Prefix names without their colons, and the IRIs that they stand for. Contracts see them as a list of pairs.
#[derive(Drop)]
pub(crate) struct Prefixes {
    table: IndexMap<String, String>,
}

impl Model for Prefixes {
    ghost use Rattle.std.specs.Prelude.{List, ℕ, map, string_bytes};

    ghost Value = { List (List ℕ × List ℕ) };

    ghost view = { λ p. map (λ e. (string_bytes e.0, string_bytes e.1)) p.table.entries };
}

impl Prefixes {
    /// No prefixes. It takes no memory.
    fn none(alloc: Global) -> Prefixes
        ensures { result ≡ [] }
    {
        Prefixes {
            table: IndexMap::new(alloc),
        }
    }

    /// The prefixes that need no declaration.
    pub(crate) fn new(alloc: Global) -> Result<Prefixes, NoMemory>
        ensures { IfOk result (λ prefixes. prefixes ≡ predefined) }
    {
        let mut prefixes = Prefixes::none(alloc);
        prefixes.add("owl", "http://www.w3.org/2002/07/owl#")?;
        prefixes.add("rdf", "http://www.w3.org/1999/02/22-rdf-syntax-ns#")?;
        prefixes.add("rdfs", "http://www.w3.org/2000/01/rdf-schema#")?;
        prefixes.add("xsd", "http://www.w3.org/2001/XMLSchema#")?;
        Ok(prefixes)
    }

    /// The IRI that a prefix name stands for, where it is declared.
    pub(crate) fn get(&self, name: &str) -> Option<&str>
        ensures { MatchOption result (declared_iri self.now name.now ≡ None)
            (λ iri. declared_iri self.now name.now ≡ Some iri.now) }
    {
        match self.table.get(name) {
            Some(iri) => Some(iri.as_str()),
            None => None,
        }
    }

    /// Declares that a prefix name, which isn't declared, stands for an IRI.
    pub(crate) fn add(&mut self, name: &str, iri: &str) -> Result<(), NoMemory>
        requires { declared_iri self.old name.now ≡ None }
        ensures { OnOk result (self.new ≡ self.old ++ (name.now, iri.now) ∷ []) }
    {
        let key = String::from_str(*self.table.allocator(), name)?;
        let value = String::from_str(*self.table.allocator(), iri)?;
        self.table.insert(key, value)?;
        Ok(())
    }
}
