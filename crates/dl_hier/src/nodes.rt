// The predicates of a hierarchy, in order, and the nodes of its roles and basic concepts: a term's node is its index.
ghost use Rattle.std.specs.Prelude.{◌≡◌, ◌+◌, ◌++◌, ◌<◌, ◌≤◌, ◌^◌, map, length, Contains, IfOk, IsTrue, OnOk, MatchOption};
ghost use Rattle.std.specs.List.{flat_map};
ghost use Rattle.std.specs.List.Sorted.{IsStrictlySortedBy};
ghost use Rattle.std.specs.declared.cmp.Ordering.TheVariants.{Equal};
ghost use Rattle.dl_terms.specs.declared.role.Base.TheVariants.{Named};
ghost use Rattle.dl_hier.specs.Predicates.{AreInOrder, max_predicates, both_ways, bases, roles, basics};
ghost use Rattle.dl_hier.specs.Rows.{AreFew, ArePredicatesOf};
ghost use Rattle.dl_hier.specs.Nodes.{StandsAt};

use crate::auxiliaries::auxiliaries_of;
use crate::guesses::Guesses;
use dl_terms::{Base, Basic, List, NoMemory, Normal, Role, Signature, set_of};
use std::alloc::Global;
use std::cmp::Ordering;
use std::marker::Model;

/// The classes and object properties of a signature, and the auxiliary roles of a normal form, each list ascending,
/// beside guesses where an item stands.
#[derive(Drop)]
pub(crate) struct Nodes {
    classes: List<u32>,
    properties: List<u32>,
    auxiliaries: List<Base>,
    class_guesses: Guesses,
    property_guesses: Guesses,
    auxiliary_guesses: Guesses,
}

impl Model for Nodes {
    ghost use Rattle.dl_hier.specs.Predicates.{Predicates, AreInOrder};

    ghost Value = { Predicates };

    ghost view = { λ n. record { classes = n.classes; properties = n.properties; auxiliaries = n.auxiliaries } };

    ghost invariant = { λ n. AreInOrder
        (record { classes = n.classes; properties = n.properties; auxiliaries = n.auxiliaries }) };
}

impl Nodes {
    /// The predicates of a signature and a normal form. Fails only for want of memory.
    pub(crate) fn of(
        alloc: Global,
        normal: &Normal,
        signature: &Signature,
    ) -> Result<Nodes, NoMemory>
        requires { AreFew signature.now normal.now }
        ensures predicates { IfOk result (ArePredicatesOf signature.now normal.now) }
        ensures order { IfOk result AreInOrder }
    {
        let classes = List::of(Vec::from_slice(alloc, signature.classes.as_slice())?);
        let properties = List::of(Vec::from_slice(alloc, signature.roles.as_slice())?);
        let auxiliaries = auxiliaries_of(alloc, normal)?;
        Nodes::guessed(
            alloc,
            set_of(classes),
            set_of(properties),
            set_of(auxiliaries),
        )
    }

    /// These predicates, with guesses where they stand. Fails only for want of memory.
    fn guessed(
        alloc: Global,
        classes: List<u32>,
        properties: List<u32>,
        auxiliaries: List<Base>,
    ) -> Result<Nodes, NoMemory>
        requires { AreInOrder (record { classes = classes; properties = properties; auxiliaries = auxiliaries }) }
        ensures { IfOk result (λ nodes.
            nodes ≡ record { classes = classes; properties = properties; auxiliaries = auxiliaries }) }
    {
        let class_guesses = Guesses::of_names(alloc, classes.as_slice())?;
        let property_guesses = Guesses::of_names(alloc, properties.as_slice())?;
        let auxiliary_guesses = Guesses::of_bases(alloc, auxiliaries.as_slice())?;
        Ok(Nodes {
            classes,
            properties,
            auxiliaries,
            class_guesses,
            property_guesses,
            auxiliary_guesses,
        })
    }

    /// The classes, ascending.
    pub(crate) fn classes(&self) -> &[u32]
        ensures { result.now ≡ self.now.classes }
    {
        self.classes.as_slice()
    }

    /// The object properties, ascending.
    pub(crate) fn properties(&self) -> &[u32]
        ensures { result.now ≡ self.now.properties }
    {
        self.properties.as_slice()
    }

    /// How many classes there are.
    pub(crate) fn class_count(&self) -> u32
        ensures { result ≡ length self.now.classes }
    {
        self.classes.len() as u32
    }

    /// How many roles there are.
    pub(crate) fn role_count(&self) -> u32
        ensures { result ≡ length (roles self.now) }
    {
        2 * (self.properties.len() + self.auxiliaries.len()) as u32
    }

    /// The roles, ascending. Fails only for want of memory.
    pub(crate) fn roles(&self, alloc: Global) -> Result<List<Role>, NoMemory>
        ensures { IfOk result (λ list. list ≡ roles self.now) }
    {
        let mut list = List::new(alloc);
        push_properties(&mut list, self.properties.as_slice())?;
        push_bases(&mut list, self.auxiliaries.as_slice())?;
        Ok(list)
    }

    /// The node of a role, or none where the role isn't in the hierarchy.
    pub(crate) fn role(&self, role: Role) -> Option<u32>
        ensures { MatchOption result (Contains (roles self.now) role → ⊥)
            (λ i. StandsAt (roles self.now) i role) }
    {
        match self.base(role.base) {
            Some(base) => Some(if role.inverse { 2 * base + 1 } else { 2 * base }),
            None => None,
        }
    }

    /// The index of a role name among the properties and the auxiliary roles behind them.
    fn base(&self, base: Base) -> Option<u32>
        ensures index { MatchOption result (Contains (bases self.now) base → ⊥)
            (λ i. StandsAt (bases self.now) i base) }
        ensures few { length (bases self.now) ≤ max_predicates }
    {
        match base {
            Base::Named(name) => {
                let guess = self.property_guesses.of_name(name);
                index_of(self.properties.as_slice(), &name, guess)
            }
            Base::Auxiliary { .. } => {
                let guess = self.auxiliary_guesses.of_base(base);
                match index_of(self.auxiliaries.as_slice(), &base, guess) {
                    Some(index) => Some(self.properties.len() as u32 + index),
                    None => None,
                }
            }
        }
    }

    /// The node of a basic concept, or none where it isn't in the hierarchy.
    pub(crate) fn basic(&self, basic: Basic) -> Option<u32>
        ensures { MatchOption result (Contains (basics self.now) basic → ⊥)
            (λ i. StandsAt (basics self.now) i basic) }
    {
        match basic {
            Basic::Class(class) => {
                let guess = self.class_guesses.of_name(class);
                index_of(self.classes.as_slice(), &class, guess)
            }
            Basic::SomeOf(role) => match self.role(role) {
                Some(node) => Some(self.classes.len() as u32 + node),
                None => None,
            },
        }
    }
}

/// The index of an item in a list that ascends strictly: the guess, if the item stands there, or what a search finds.
fn index_of<T: Ord>(items: &[T], item: &T, guess: usize) -> Option<u32>
    requires few { length items.now ≤ max_predicates }
    requires ascending { IsStrictlySortedBy T.cmp items.now }
    requires equal { (x y : T) → T.cmp x y ≡ Equal → x ≡ y }
    ensures { MatchOption result (Contains items.now item.now → ⊥)
        (λ i. StandsAt items.now i item.now) }
{
    if is_at(items, item, guess) {
        return Some(guess as u32);
    }
    match items.binary_search(item) {
        Ok(index) => Some(index as u32),
        Err(_) => None,
    }
}

/// Whether an item stands at an index.
fn is_at<T: Ord>(items: &[T], item: &T, index: usize) -> bool
    requires { (x y : T) → T.cmp x y ≡ Equal → x ≡ y }
    ensures { IsTrue result → StandsAt items.now index item.now }
{
    match items.get(index) {
        Some(there) => there.cmp(item) == Ordering::Equal,
        None => false,
    }
}

fn push_properties(roles: &mut List<Role>, properties: &[u32]) -> Result<(), NoMemory>
    ensures { OnOk result (roles.new ≡ roles.old ++ flat_map both_ways (map Named properties.now)) }
{
    for property in properties {
        push_both_ways(roles, Base::Named(*property))?;
    }
    Ok(())
}

fn push_bases(roles: &mut List<Role>, bases: &[Base]) -> Result<(), NoMemory>
    ensures { OnOk result (roles.new ≡ roles.old ++ flat_map both_ways bases.now) }
{
    for base in bases {
        push_both_ways(roles, *base)?;
    }
    Ok(())
}

fn push_both_ways(roles: &mut List<Role>, base: Base) -> Result<(), NoMemory>
    ensures { OnOk result (roles.new ≡ roles.old ++ both_ways base) }
{
    roles.push(Role {
        base,
        inverse: false,
    })?;
    roles.push(Role {
        base,
        inverse: true,
    })
}
