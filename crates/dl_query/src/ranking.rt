// Queries over places become queries over numbers.
ghost use Rattle.std.specs.Prelude.{◌≡◌, ◌<◌, length, slice_index, All};
ghost use Rattle.dl_terms.specs.Occurring.{query_names};
ghost use Rattle.dl_terms.specs.Renamed.{renamed_query};

use dl_names::Ranks;
use dl_terms::Query;

/// Replaces the place of each name of a query by its rank, as `Ranks::rank_query` does. It takes no memory.
pub fn ranked(query: &mut Query, ranks: &Ranks)
    requires { All (λ place. place < length ranks.now) (query_names query.old) }
    ensures { query.new ≡ renamed_query (slice_index ranks.now) query.old }
{
    ranks.rank_query(query);
}
