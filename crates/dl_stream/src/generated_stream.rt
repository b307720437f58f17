// The stream of the generated input.
ghost use Rattle.std.specs.Prelude.{◌≡◌, ◌∷◌, [], ◌≤◌, IfOk};
ghost use Rattle.dl_terms.specs.declared.role.Basic.TheVariants as basic;
ghost use Rattle.dl_terms.specs.declared.axiom.Axiom.TheVariants.{SubClass};
ghost use Rattle.dl_terms.specs.declared.axiom.Part.TheVariants as part;
ghost use Rattle.dl_event.specs.declared.event.Item.TheVariants as item;
ghost use Rattle.dl_stream.specs.Generator.{generated_query, generated_edits, generated_commands, generated_streams};
ghost use Rattle.dl_stream.specs.Steps.{command_of};

use crate::generated_axioms::sub_class;
use crate::{Command, Streams};
use dl_event::{Edit, Event, Item};
use dl_terms::{Atom, List, NoMemory, Part, Query, Term};
use std::alloc::Global;

/// What the stream does next.
#[derive(Clone, Copy)]
enum Step {
    Pin,
    Unpin,
    Ask,
    Commit,
    Migrate(u32),
    Sweep(u32),
    Reclaim,
}

/// The steps of the stream.
const STEPS: [Step; 17] = [
    Step::Pin,
    Step::Ask,
    Step::Commit,
    Step::Migrate(0),
    Step::Migrate(1),
    Step::Migrate(2),
    Step::Migrate(3),
    Step::Ask,
    Step::Unpin,
    Step::Pin,
    Step::Ask,
    Step::Unpin,
    Step::Sweep(0),
    Step::Sweep(1),
    Step::Sweep(2),
    Step::Sweep(3),
    Step::Reclaim,
];

/// The query that is asked.
fn query(alloc: Global, size: u32) -> Result<Query, NoMemory>
    requires { size ≤ 100000 }
    ensures { IfOk result (λ query. query ≡ generated_query size) }
{
    let mut head = List::new(alloc);
    head.push(0)?;
    let mut atoms = List::new(alloc);
    atoms.push(Atom::Is {
        class: 0,
        at: Term::Var(0),
    })?;
    atoms.push(Atom::Link {
        role: 32 + size,
        from: Term::Var(0),
        to: Term::Var(1),
    })?;
    Ok(Query {
        head,
        atoms,
        vars: 2,
    })
}

/// An edit of the axiom that a class is below `c00`.
fn edit(alloc: Global, add: bool, class: u32) -> Result<Edit, NoMemory>
    ensures { IfOk result (λ edit. edit ≡
        record { add = add; item = item.Axiom (SubClass (basic.Class class) (part.Class 0 ∷ [])) }) }
{
    let below = sub_class(alloc, class, Part::Class(0))?;
    Ok(Edit {
        add,
        item: Item::Axiom(below),
    })
}

/// The edits of the commit.
fn edits(alloc: Global) -> Result<List<Edit>, NoMemory>
    ensures { IfOk result (λ edits. edits ≡ generated_edits) }
{
    let mut edits = List::new(alloc);
    edits.push(edit(alloc, false, 1)?)?;
    edits.push(edit(alloc, true, 31)?)?;
    Ok(edits)
}

/// A step as a command.
fn command(alloc: Global, size: u32, step: Step) -> Result<Command, NoMemory>
    requires { size ≤ 100000 }
    ensures { IfOk result (λ command. command ≡ command_of size step) }
{
    let rows = u64::from(size);
    Ok(match step {
        Step::Pin => Command::Put(Event::Pin),
        Step::Unpin => Command::Put(Event::Unpin),
        Step::Ask => Command::Ask {
            query: query(alloc, size)?,
            limit: 1_000_000,
        },
        Step::Commit => Command::Put(Event::Commit(edits(alloc)?)),
        Step::Migrate(shard) => Command::Put(Event::Migrate { shard, n: rows }),
        Step::Sweep(shard) => Command::Put(Event::Sweep { shard, n: rows }),
        Step::Reclaim => Command::Put(Event::Reclaim),
    })
}

/// The commands of the stream.
fn commands(alloc: Global, size: u32) -> Result<List<Command>, NoMemory>
    requires { size ≤ 100000 }
    ensures { IfOk result (λ commands. commands ≡ generated_commands size) }
{
    let mut commands = List::new(alloc);
    for step in STEPS {
        commands.push(command(alloc, size, step)?)?;
    }
    Ok(commands)
}

/// The streams: this one alone.
pub(crate) fn generated_streams(alloc: Global, size: u32) -> Result<Streams, NoMemory>
    requires { size ≤ 100000 }
    ensures { IfOk result (λ streams. streams ≡ generated_streams size) }
{
    let mut lists = List::new(alloc);
    lists.push(commands(alloc, size)?)?;
    Ok(Streams { lists })
}
