ghost use Rattle.dl_models.specs.Finite.{IsInterpretation};

use dl_terms::List;

/// A finite interpretation. Its elements are the numbers below `size`, which is at least 1.
#[derive(Drop)]
pub struct Interp {
    pub size: u32,
    /// The element of each name; a name stands here at most once.
    pub names: List<(u32, u32)>,
    /// Each class with each element in it.
    pub classes: List<(u32, u32)>,
    /// Each role with each two elements that it joins.
    pub links: List<(u32, u32, u32)>,
    pub ghost valid: { IsInterpretation size names classes links },
}
