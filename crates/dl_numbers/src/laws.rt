//! Laws of depth-first numbers, for every order of names: they exist, they are one list, each name has one of them, and
//! in a forest the names below one have those of one interval. They go by the names and how they relate, and by nothing
//! else.
ghost use Rattle.std.specs.Prelude.{◌≡◌, ◌↔◌, ℕ, List, Contains};
ghost use Rattle.std.specs.List.Sorted.{IsStrictlyIncreasing};
ghost use Rattle.dl_numbers.specs.Numbers.{IsBelow};
ghost use Rattle.dl_numbers.specs.DepthFirst.{IsDepthFirst};
ghost use Rattle.dl_numbers.specs.Runs.{AreNumbered, IsForest, HasOneInterval};

use dl_reach::Closure;

/// The names have depth-first numbers, whatever their order is.
pub fn numbers_exist(names: &[u32], order: &Closure)
    requires ascending { IsStrictlyIncreasing names.now }
    ensures { (numbered : List ℕ) × IsDepthFirst names.now (IsBelow names.now order.now) numbered }
{}

/// The rule determines the numbers.
pub fn numbers_are_one(names: &[u32], order: &Closure)
    ensures { (one two : List ℕ) → IsDepthFirst names.now (IsBelow names.now order.now) one
        → IsDepthFirst names.now (IsBelow names.now order.now) two → one ≡ two }
{}

/// Each of the names has exactly one number, and nothing else has one: they are 1 to the count of the names.
pub fn each_name_has_one_number(names: &[u32], order: &Closure)
    requires ascending { IsStrictlyIncreasing names.now }
    ensures { (numbered : List ℕ) → IsDepthFirst names.now (IsBelow names.now order.now) numbered
        → AreNumbered names.now numbered }
{}

/// Where the order is a forest, the names below any one of them have the numbers of one interval.
pub fn what_is_below_is_one_interval(names: &[u32], order: &Closure)
    requires ascending { IsStrictlyIncreasing names.now }
    requires forest { IsForest names.now (IsBelow names.now order.now) }
    ensures { (numbered : List ℕ) → IsDepthFirst names.now (IsBelow names.now order.now) numbered
        → (name : ℕ) → Contains names.now name
        → HasOneInterval numbered (λ a. IsBelow names.now order.now a name) }
{}

/// The numbers go by the names and how they relate: graphs that tell the same order give the same numbers, and so do
/// lists of the same names.
pub fn numbers_go_by_the_names_alone(
    names: &[u32],
    others: &[u32],
    order: &Closure,
    other: &Closure,
)
    ensures agree { ((a b : ℕ) → Contains names.now a → Contains names.now b
        → IsBelow names.now order.now a b ↔ IsBelow names.now other.now a b)
        → (numbered : List ℕ) → IsDepthFirst names.now (IsBelow names.now order.now) numbered
        → IsDepthFirst names.now (IsBelow names.now other.now) numbered }
    ensures members { ((n : ℕ) → Contains names.now n ↔ Contains others.now n)
        → (numbered : List ℕ) → IsDepthFirst names.now (IsBelow names.now order.now) numbered
        → IsDepthFirst others.now (IsBelow names.now order.now) numbered }
{}
