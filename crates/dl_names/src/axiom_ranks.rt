// Places of names in axioms replaced by their ranks.
ghost use Rattle.std.specs.Prelude.{◌≡◌, ◌<◌, length, map, slice_index, All};
ghost use Rattle.dl_terms.specs.Occurring.{base_names, role_names, basic_names, part_names, axiom_names};
ghost use Rattle.dl_terms.specs.Renamed.{renamed_base, renamed_role, renamed_basic, renamed_part, renamed_axiom};

use crate::Ranks;
use dl_terms::{Axiom, Base, Basic, Part, Role};

impl Ranks {
    /// Replaces each place that axioms name by its rank. The places are ones that `NameSet::add` gave. It takes no
    /// memory.
    pub fn rank_axioms(&self, axioms: &mut [Axiom])
        requires { All (λ stated. All (λ place. place < length self.now) (axiom_names stated)) axioms.old }
        ensures { axioms.new ≡ map (renamed_axiom (slice_index self.now)) axioms.old }
    {
        for stated in axioms.iter_mut() {
            self.rank_axiom(stated);
        }
    }

    /// Replaces each place that an axiom names by its rank, which is its number. The places are ones that
    /// `NameSet::add` gave. It takes no memory.
    pub fn rank_axiom(&self, stated: &mut Axiom)
        requires { All (λ place. place < length self.now) (axiom_names stated.old) }
        ensures { stated.new ≡ renamed_axiom (slice_index self.now) stated.old }
    {
        match stated {
            Axiom::SubClass { sub, sup } => {
                *sub = self.ranked_basic(*sub);
                self.rank_parts(sup.as_mut_slice());
            }
            Axiom::EquivalentClasses(basics) => self.rank_basics(basics.as_mut_slice()),
            Axiom::DisjointClasses(basics) => self.rank_basics(basics.as_mut_slice()),
            Axiom::SubRole { sub, sup } => {
                *sub = self.ranked_role(*sub);
                *sup = self.ranked_role(*sup);
            }
            Axiom::EquivalentRoles(roles) => self.rank_roles(roles.as_mut_slice()),
            Axiom::DisjointRoles(roles) => self.rank_roles(roles.as_mut_slice()),
            Axiom::InverseRoles { one, two } => {
                *one = self.ranked_role(*one);
                *two = self.ranked_role(*two);
            }
            Axiom::Domain { role, sup } => {
                *role = self.ranked_role(*role);
                self.rank_parts(sup.as_mut_slice());
            }
            Axiom::Range { role, sup } => {
                *role = self.ranked_role(*role);
                self.rank_parts(sup.as_mut_slice());
            }
            Axiom::Symmetric(role) => *role = self.ranked_role(*role),
            Axiom::Asymmetric(role) => *role = self.ranked_role(*role),
            Axiom::Irreflexive(role) => *role = self.ranked_role(*role),
        }
    }

    fn rank_parts(&self, parts: &mut [Part])
        requires { All (λ part. All (λ place. place < length self.now) (part_names part)) parts.old }
        ensures { parts.new ≡ map (renamed_part (slice_index self.now)) parts.old }
    {
        for part in parts.iter_mut() {
            *part = self.ranked_part(*part);
        }
    }

    fn rank_basics(&self, basics: &mut [Basic])
        requires { All (λ basic. All (λ place. place < length self.now) (basic_names basic)) basics.old }
        ensures { basics.new ≡ map (renamed_basic (slice_index self.now)) basics.old }
    {
        for basic in basics.iter_mut() {
            *basic = self.ranked_basic(*basic);
        }
    }

    fn rank_roles(&self, roles: &mut [Role])
        requires { All (λ role. All (λ place. place < length self.now) (role_names role)) roles.old }
        ensures { roles.new ≡ map (renamed_role (slice_index self.now)) roles.old }
    {
        for role in roles.iter_mut() {
            *role = self.ranked_role(*role);
        }
    }

    fn ranked_part(&self, part: Part) -> Part
        requires { All (λ place. place < length self.now) (part_names part) }
        ensures { result ≡ renamed_part (slice_index self.now) part }
    {
        match part {
            Part::Thing => Part::Thing,
            Part::Class(class) => Part::Class(self.of(class)),
            Part::Any(role) => Part::Any(self.ranked_role(role)),
            Part::Fill(role, class) => Part::Fill(self.ranked_role(role), self.of(class)),
            Part::Not(basic) => Part::Not(self.ranked_basic(basic)),
        }
    }

    fn ranked_basic(&self, basic: Basic) -> Basic
        requires { All (λ place. place < length self.now) (basic_names basic) }
        ensures { result ≡ renamed_basic (slice_index self.now) basic }
    {
        match basic {
            Basic::Class(class) => Basic::Class(self.of(class)),
            Basic::SomeOf(role) => Basic::SomeOf(self.ranked_role(role)),
        }
    }

    fn ranked_role(&self, role: Role) -> Role
        requires { All (λ place. place < length self.now) (role_names role) }
        ensures { result ≡ renamed_role (slice_index self.now) role }
    {
        Role {
            base: self.ranked_base(role.base),
            inverse: role.inverse,
        }
    }

    fn ranked_base(&self, base: Base) -> Base
        requires { All (λ place. place < length self.now) (base_names base) }
        ensures { result ≡ renamed_base (slice_index self.now) base }
    {
        match base {
            Base::Named(name) => Base::Named(self.of(name)),
            Base::Auxiliary {
                role,
                inverse,
                class,
            } => Base::Auxiliary {
                role: self.of(role),
                inverse,
                class: self.of(class),
            },
        }
    }
}
