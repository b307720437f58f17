//! Which depth-first numbers the classes of small ontologies have.
ghost use Rattle.std.specs.Prelude.{[], ◌∷◌};
ghost use Rattle.dl_numbers.specs.DepthFirst.{IsDepthFirst};
ghost use Rattle.dl_examples.specs.Numbers.{a, b, c, d, with_two_parents, with_a_cycle, ClassBelow};

/// Classes in depth-first order: the number of a class is its place in the list, from 1.
pub fn number_examples()
    // A is below B and C, and D below B. B and C are roots, and the parent of A is B, the lesser of the two: B 1, A 2,
    // D 3, C 4. So what is below C has the numbers 2 and 4, which are two intervals.
    ensures two_parents { IsDepthFirst (a ∷ b ∷ c ∷ d ∷ []) (ClassBelow with_two_parents) (b ∷ a ∷ d ∷ c ∷ []) }
    // A and C are equivalent, and B is below them: A 1, C 2, B 3.
    ensures a_cycle { IsDepthFirst (a ∷ b ∷ c ∷ []) (ClassBelow with_a_cycle) (a ∷ c ∷ b ∷ []) }
{}
