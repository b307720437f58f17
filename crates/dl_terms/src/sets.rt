// Lists made into sets: sorted, each item once.
ghost use Rattle.std.specs.Prelude.{◌≡◌};
ghost use Rattle.std.specs.declared.cmp.Ordering.TheVariants.{Equal};
ghost use Rattle.dl_terms.specs.Sets.{IsSetOf};

use crate::List;

/// The set of the items of a list: sorted, each once. Items that compare equal have to be the same. It takes no memory.
pub fn set_of<T: Ord + Drop>(items: List<T>) -> List<T>
    requires { (x y : T) → T.cmp x y ≡ Equal → x ≡ y }
    ensures { IsSetOf T.cmp result items }
{
    let mut set = items.into_vec();
    set.sort_unstable();
    set.dedup();
    List::of(set)
}
