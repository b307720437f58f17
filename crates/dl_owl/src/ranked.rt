// Places of names replaced by their ranks.
ghost use Rattle.std.specs.Prelude.{◌≡◌, ◌<◌, length, map, slice_index, All};
ghost use Rattle.dl_terms.specs.Occurring.{axiom_names, fact_names};
ghost use Rattle.dl_terms.specs.Renamed.{renamed_axiom, renamed_fact};

use crate::Document;
use dl_names::Ranks;

impl Document {
    /// Replaces each place of a name by its rank, which is the number of the name. The places are ones that
    /// `NameSet::add` gave. It takes no memory.
    pub fn ranked(&mut self, ranks: &Ranks)
        requires axioms { All (λ stated.
            All (λ place. place < length ranks.now) (axiom_names stated)) self.old.axioms }
        requires facts { All (λ fact.
            All (λ place. place < length ranks.now) (fact_names fact)) self.old.facts }
        requires classes { All (λ place. place < length ranks.now) self.old.classes }
        requires roles { All (λ place. place < length ranks.now) self.old.roles }
        ensures axioms { self.new.axioms ≡ map (renamed_axiom (slice_index ranks.now)) self.old.axioms }
        ensures facts { self.new.facts ≡ map (renamed_fact (slice_index ranks.now)) self.old.facts }
        ensures classes { self.new.classes ≡ map (slice_index ranks.now) self.old.classes }
        ensures roles { self.new.roles ≡ map (slice_index ranks.now) self.old.roles }
    {
        ranks.rank_axioms(self.axioms.as_mut_slice());
        ranks.rank_facts(self.facts.as_mut_slice());
        ranks.rank_names(self.classes.as_mut_slice());
        ranks.rank_names(self.roles.as_mut_slice());
    }
}
