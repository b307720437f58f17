// Which facts a commit brings, and which it takes away.
ghost use Rattle.std.specs.Prelude.{◌≡◌, IfOk};
ghost use Rattle.dl_terms.specs.Order.{fact_cmp};
ghost use Rattle.dl_edits.specs.Sets.{has};
ghost use Rattle.dl_core.specs.Next.{IsReady, root_facts};
ghost use Rattle.dl_core.specs.Changes.{turns, turned};

use crate::Root;
use crate::found::place_of;
use dl_terms::{Fact, List, NoMemory};
use std::alloc::Global;

/// Of facts with whether they are to be there, those that come, or those that go, in their order.
pub(crate) fn turned_facts(
    alloc: Global,
    root: &Root,
    decided: &[(Fact, bool)],
    come: bool,
) -> Result<List<Fact>, NoMemory>
    requires { IsReady root.now }
    ensures { IfOk result (λ facts. facts ≡ turned come (root_facts root.now) decided.now) }
{
    let mut facts = List::new(alloc);
    for pair in decided {
        if turns(root, pair.0, pair.1, come) {
            facts.push(pair.0)?;
        }
    }
    Ok(facts)
}

/// Whether a fact that is to be there, or not, comes or goes so.
fn turns(root: &Root, fact: Fact, to_be: bool, come: bool) -> bool
    requires { IsReady root.now }
    ensures { result ≡ turns come to_be (has fact_cmp (root_facts root.now) fact) }
{
    if come {
        to_be && !is_there(root, fact)
    } else {
        !to_be && is_there(root, fact)
    }
}

/// Whether a fact is there.
fn is_there(root: &Root, fact: Fact) -> bool
    requires { IsReady root.now }
    ensures { result ≡ has fact_cmp (root_facts root.now) fact }
{
    // Its book says that the root stands for some history, so that each fact has one open row at most.
    let _book = root.book();
    place_of(root, fact).is_some()
}
