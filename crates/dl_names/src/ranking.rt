// Places of names in lists, facts and queries replaced by their ranks.
ghost use Rattle.std.specs.Prelude.{◌≡◌, ◌<◌, length, map, slice_index, All};
ghost use Rattle.dl_terms.specs.Occurring.{fact_names, query_names, atom_names, term_names};
ghost use Rattle.dl_terms.specs.Renamed.{renamed_fact, renamed_query, renamed_atom, renamed_term};

use crate::Ranks;
use dl_terms::{Atom, Fact, Query, Term};

impl Ranks {
    /// Replaces each place by its rank, which is the number of the name. The places are ones that `NameSet::add` gave.
    /// It takes no memory.
    pub fn rank_names(&self, names: &mut [u32])
        requires { All (λ place. place < length self.now) names.old }
        ensures { names.new ≡ map (slice_index self.now) names.old }
    {
        for name in names.iter_mut() {
            *name = self.of(*name);
        }
    }

    /// Replaces each place that a fact names by its rank: facts over places become facts over numbers. The places
    /// are ones that `NameSet::add` gave. It takes no memory.
    pub fn rank_facts(&self, facts: &mut [Fact])
        requires { All (λ fact. All (λ place. place < length self.now) (fact_names fact)) facts.old }
        ensures { facts.new ≡ map (renamed_fact (slice_index self.now)) facts.old }
    {
        for fact in facts.iter_mut() {
            *fact = self.ranked_fact(*fact);
        }
    }

    /// The fact with each place replaced by its rank. The places are ones that `NameSet::add` gave. It takes no memory.
    pub fn ranked_fact(&self, fact: Fact) -> Fact
        requires { All (λ place. place < length self.now) (fact_names fact) }
        ensures { result ≡ renamed_fact (slice_index self.now) fact }
    {
        match fact {
            Fact::Is { class, who } => Fact::Is {
                class: self.of(class),
                who: self.of(who),
            },
            Fact::Link { role, from, to } => Fact::Link {
                role: self.of(role),
                from: self.of(from),
                to: self.of(to),
            },
        }
    }

    /// Replaces the place of each name of a query by its rank, which is its number from then on. The places are ones
    /// that `NameSet::add` gave. It takes no memory.
    pub fn rank_query(&self, query: &mut Query)
        requires { All (λ place. place < length self.now) (query_names query.old) }
        ensures { query.new ≡ renamed_query (slice_index self.now) query.old }
    {
        self.rank_atoms(query.atoms.as_mut_slice());
    }

    fn rank_atoms(&self, atoms: &mut [Atom])
        requires { All (λ atom. All (λ place. place < length self.now) (atom_names atom)) atoms.old }
        ensures { atoms.new ≡ map (renamed_atom (slice_index self.now)) atoms.old }
    {
        for atom in atoms.iter_mut() {
            *atom = self.ranked_atom(*atom);
        }
    }

    fn ranked_atom(&self, atom: Atom) -> Atom
        requires { All (λ place. place < length self.now) (atom_names atom) }
        ensures { result ≡ renamed_atom (slice_index self.now) atom }
    {
        match atom {
            Atom::Is { class, at } => Atom::Is {
                class: self.of(class),
                at: self.ranked_term(at),
            },
            Atom::Link { role, from, to } => Atom::Link {
                role: self.of(role),
                from: self.ranked_term(from),
                to: self.ranked_term(to),
            },
        }
    }

    fn ranked_term(&self, term: Term) -> Term
        requires { All (λ place. place < length self.now) (term_names term) }
        ensures { result ≡ renamed_term (slice_index self.now) term }
    {
        match term {
            Term::Var(number) => Term::Var(number),
            Term::Name(place) => Term::Name(self.of(place)),
        }
    }
}
