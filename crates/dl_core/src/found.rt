// Where the open row of a fact stands.
ghost use Rattle.std.specs.Prelude.{◌≡◌, false, MatchOption};
ghost use Rattle.dl_terms.specs.Order.{fact_cmp};
ghost use Rattle.dl_terms.specs.declared.axiom.Fact.TheVariants.{Is, Link};
ghost use Rattle.dl_edits.specs.Sets.{has};
ghost use Rattle.dl_core.specs.Next.{root_facts};
ghost use Rattle.dl_core.specs.Changes.{first_end, OpensAt, NoneOpens, StandsAt};

use crate::Root;
use dl_epoch::Epoch;
use dl_row::{Kind, PlainShard};
use dl_terms::Fact;

/// The place of the open row that stands for a fact, in the shard of its first end, or `None` where the fact isn't
/// there. It takes no memory.
pub(crate) fn place_of(root: &Root, fact: Fact) -> Option<u64>
    ensures { MatchOption result (has fact_cmp (root_facts root.now) fact ≡ false) (StandsAt root.now fact) }
{
    let book = root.book();
    let shard = root.shard(first_end(fact) % root.shards());
    let entries = book.epochs.entries();
    for entry in entries {
        if let Some(place) = place_in(shard, &*entry.epoch, fact) {
            return Some(place);
        }
    }
    None
}

/// The first end of a fact, which tells its shard.
pub(crate) fn first_end(fact: Fact) -> u32
    ensures { result ≡ first_end fact }
{
    match fact {
        Fact::Is { who, .. } => who,
        Fact::Link { from, .. } => from,
    }
}

/// The place of the open row that carries an epoch and is by it of a fact.
fn place_in(shard: &PlainShard, epoch: &Epoch, fact: Fact) -> Option<u64>
    ensures { MatchOption result (NoneOpens shard.now epoch.now fact) (OpensAt shard.now epoch.now fact) }
{
    match fact {
        Fact::Is { class, who } => class_place(shard, epoch, class, who),
        Fact::Link { role, from, to } => role_place(shard, epoch, role, from, to),
    }
}

/// The place of the open row of a class and a name.
fn class_place(shard: &PlainShard, epoch: &Epoch, class: u32, who: u32) -> Option<u64>
    ensures { MatchOption result (NoneOpens shard.now epoch.now (Is class who))
        (OpensAt shard.now epoch.now (Is class who)) }
{
    match epoch.class_number(class) {
        Some(number) => shard.find(epoch.id(), Kind::Class, number, who, who),
        None => None,
    }
}

/// The place of the open row of a role and two names.
fn role_place(shard: &PlainShard, epoch: &Epoch, role: u32, from: u32, to: u32) -> Option<u64>
    ensures { MatchOption result (NoneOpens shard.now epoch.now (Link role from to))
        (OpensAt shard.now epoch.now (Link role from to)) }
{
    match epoch.role_number(role) {
        Some(number) => shard.find(epoch.id(), Kind::Role, number, from, to),
        None => None,
    }
}
