// Pairs below what is asked, of the facts of several shards.
ghost use Rattle.std.specs.Prelude.{◌↔◌, ◌⊎◌, ◌++◌, ℕ, List};
ghost use Rattle.dl_hier.specs.declared.below.Below.{Below};
ghost use Rattle.dl_row.specs.Rows.{Epoch};
ghost use Rattle.dl_row.specs.declared.row.Row.{Row};
ghost use Rattle.dl_scan.specs.Pairs.{IsPairBelow, visible_facts};

/// The law by which a scan takes one shard after another: the pairs of the rows of both are those of either.
pub fn pairs_of_shards()
    ensures { (epochs : List Epoch) (version : ℕ) (one two : List Row) (below : Below) (p : ℕ × ℕ) →
        IsPairBelow (visible_facts epochs version (one ++ two)) below p ↔
        (IsPairBelow (visible_facts epochs version one) below p
        ⊎ IsPairBelow (visible_facts epochs version two) below p) }
{}
