// What an ontology holds.
ghost use Rattle.std.specs.Prelude.{◌≡◌, OnOk};
ghost use Rattle.dl_owl.specs.Items.{empty_document, with_item};

use crate::item::Item;
use dl_terms::{Axiom, Fact, List, NoMemory};
use std::alloc::Global;

/// The axioms and facts of an ontology, and the classes and roles that it declares, each in the order in which they are
/// read. Names are places in a name set until `ranked` makes them ranks.
#[derive(Drop)]
pub struct Document {
    pub axioms: List<Axiom>,
    pub facts: List<Fact>,
    pub classes: List<u32>,
    pub roles: List<u32>,
}

impl Document {
    /// A document that holds nothing. It takes no memory.
    pub(crate) fn new(alloc: Global) -> Document
        ensures { result ≡ empty_document }
    {
        Document {
            axioms: List::new(alloc),
            facts: List::new(alloc),
            classes: List::new(alloc),
            roles: List::new(alloc),
        }
    }

    /// Adds what an item adds.
    pub(crate) fn add(&mut self, item: Item) -> Result<(), NoMemory>
        ensures { OnOk result (self.new ≡ with_item self.old item) }
    {
        match item {
            Item::Axiom(axiom) => self.axioms.push(axiom),
            Item::Fact(fact) => self.facts.push(fact),
            Item::Class(place) => self.classes.push(place),
            Item::Role(place) => self.roles.push(place),
            Item::NoEffect => Ok(()),
        }
    }
}
