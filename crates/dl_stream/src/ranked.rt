// Places of names in streams replaced by their ranks.
ghost use Rattle.std.specs.Prelude.{◌≡◌, ◌<◌, length, map, slice_index, All};
ghost use Rattle.dl_stream.specs.Commands.{ItemBelow, EventBelow, CommandBelow, IsFit, renamed_item, renamed_edit, renamed_event, renamed_command};

use crate::streams::{Command, Streams};
use dl_event::{Edit, Event, Item};
use dl_names::Ranks;
use dl_terms::List;

impl Streams {
    /// Replaces each place of a name by its rank, which is the number of the name. The places are ones that
    /// `NameSet::add` gave. It takes no memory.
    pub fn ranked(&mut self, ranks: &Ranks)
        requires { All (All (CommandBelow (length ranks.now))) self.old.lists }
        ensures renamed { self.new.lists ≡ map (map (renamed_command (slice_index ranks.now))) self.old.lists }
        ensures fit { All (All IsFit) self.old.lists → All (All IsFit) self.new.lists }
    {
        rank_streams(ranks, self.lists.as_mut_slice());
    }
}

fn rank_streams(ranks: &Ranks, streams: &mut [List<Command>])
    requires { All (All (CommandBelow (length ranks.now))) streams.old }
    ensures { streams.new ≡ map (map (renamed_command (slice_index ranks.now))) streams.old }
{
    for commands in streams.iter_mut() {
        rank_list(ranks, commands);
    }
}

fn rank_list(ranks: &Ranks, commands: &mut List<Command>)
    requires { All (CommandBelow (length ranks.now)) commands.old }
    ensures { commands.new ≡ map (renamed_command (slice_index ranks.now)) commands.old }
{
    rank_commands(ranks, commands.as_mut_slice());
}

fn rank_commands(ranks: &Ranks, commands: &mut [Command])
    requires { All (CommandBelow (length ranks.now)) commands.old }
    ensures { commands.new ≡ map (renamed_command (slice_index ranks.now)) commands.old }
{
    for command in commands.iter_mut() {
        rank_command(ranks, command);
    }
}

fn rank_command(ranks: &Ranks, command: &mut Command)
    requires { CommandBelow (length ranks.now) command.old }
    ensures { command.new ≡ renamed_command (slice_index ranks.now) command.old }
{
    match command {
        Command::Put(event) => rank_event(ranks, event),
        Command::Ask { query, .. } => ranks.rank_query(query),
    }
}

fn rank_event(ranks: &Ranks, event: &mut Event)
    requires { EventBelow (length ranks.now) event.old }
    ensures { event.new ≡ renamed_event (slice_index ranks.now) event.old }
{
    if let Event::Commit(edits) = event {
        rank_edits(ranks, edits.as_mut_slice());
    }
}

fn rank_edits(ranks: &Ranks, edits: &mut [Edit])
    requires { All (λ edit. ItemBelow (length ranks.now) edit.item) edits.old }
    ensures { edits.new ≡ map (renamed_edit (slice_index ranks.now)) edits.old }
{
    for edit in edits.iter_mut() {
        rank_edit(ranks, edit);
    }
}

fn rank_edit(ranks: &Ranks, edit: &mut Edit)
    requires { ItemBelow (length ranks.now) edit.old.item }
    ensures { edit.new ≡ renamed_edit (slice_index ranks.now) edit.old }
{
    rank_item(ranks, &mut edit.item);
}

fn rank_item(ranks: &Ranks, item: &mut Item)
    requires { ItemBelow (length ranks.now) item.old }
    ensures { item.new ≡ renamed_item (slice_index ranks.now) item.old }
{
    match item {
        Item::Axiom(stated) => ranks.rank_axiom(stated),
        Item::Fact(fact) => *fact = ranks.ranked_fact(*fact),
        Item::Class(class) => *class = ranks.of(*class),
        Item::Property(property) => *property = ranks.of(*property),
    }
}
