// The text of streams.
ghost use Rattle.std.specs.Prelude.{◌≡◌, ◌++◌, ◌∷◌, ◌<◌, if◌then◌else◌, All, codes, length, IfOk};
ghost use Rattle.std.specs.List.{flat_map};
ghost use Rattle.std.specs.Fmt.{decimal};
ghost use Rattle.dl_io.specs.Printing.{Prints};
ghost use Rattle.dl_terms.specs.Occurring.{query_names};
ghost use Rattle.dl_text.specs.NameText.{AreBelow, name_text};
ghost use Rattle.dl_text.specs.QueryText.{query_text};
ghost use Rattle.dl_stream.specs.Commands.{ItemBelow, EventBelow, CommandBelow};
ghost use Rattle.dl_stream.specs.StreamText.{line_of, rows_text, item_text, edit_text, event_text, command_text, stream_text, streams_text};

use crate::text_sink::TextSink;
use crate::{Command, Streams};
use dl_event::{Edit, Event, Item};
use dl_io::{Failed, Sink};
use dl_names::Names;
use dl_terms::{List, NoMemory, Query};
use dl_text::{Piece, print_axiom, print_fact, print_pieces, print_query};
use std::alloc::Global;

/// The text of streams, each command in its one plain form: limits are written always, variables as `?v0`, `?v1` and so
/// on by number, and names as full IRIs. The numbers of their names are below `names.len()`. Fails only for want of
/// memory.
pub fn print_streams(alloc: Global, streams: &Streams, names: &Names) -> Result<Vec<u8>, NoMemory>
    requires { All (All (CommandBelow (length names.now))) streams.now.lists }
    ensures { IfOk result (λ bytes. bytes.items ≡ streams_text names.now streams.now.lists) }
{
    let mut sink = TextSink::new(alloc);
    match put_streams(&mut sink, streams.lists.as_slice(), names) {
        Ok(()) => Ok(sink.into_bytes()),
        Err(Failed) => Err(NoMemory),
    }
}

/// Prints streams, one after the other.
fn put_streams<S: Sink>(
    sink: &mut S,
    streams: &[List<Command>],
    names: &Names,
) -> Result<(), Failed>
    requires { All (All (CommandBelow (length names.now))) streams.now }
    ensures { Prints S.got S.faults S.lent result sink.old sink.new (streams_text names.now streams.now) }
{
    for commands in streams {
        put_stream(sink, commands.as_slice(), names)?;
    }
    Ok(())
}

/// Prints a stream.
fn put_stream<S: Sink>(sink: &mut S, commands: &[Command], names: &Names) -> Result<(), Failed>
    requires { All (CommandBelow (length names.now)) commands.now }
    ensures { Prints S.got S.faults S.lent result sink.old sink.new (stream_text names.now commands.now) }
{
    print_pieces(sink, &[Piece::Text("stream\n")], names)?;
    put_commands(sink, commands, names)
}

/// Prints commands.
fn put_commands<S: Sink>(sink: &mut S, commands: &[Command], names: &Names) -> Result<(), Failed>
    requires { All (CommandBelow (length names.now)) commands.now }
    ensures { Prints S.got S.faults S.lent result sink.old sink.new
        (flat_map (command_text names.now) commands.now) }
{
    for command in commands {
        put_command(sink, command, names)?;
    }
    Ok(())
}

/// Prints a command.
fn put_command<S: Sink>(sink: &mut S, command: &Command, names: &Names) -> Result<(), Failed>
    requires { CommandBelow (length names.now) command.now }
    ensures { Prints S.got S.faults S.lent result sink.old sink.new (command_text names.now command.now) }
{
    match command {
        Command::Put(event) => put_event(sink, event, names),
        Command::Ask { query, limit } => put_ask(sink, query, *limit, names),
    }
}

/// Prints a query that is asked.
fn put_ask<S: Sink>(sink: &mut S, query: &Query, limit: u64, names: &Names) -> Result<(), Failed>
    requires { AreBelow (length names.now) (query_names query.now) }
    ensures { Prints S.got S.faults S.lent result sink.old sink.new
        (line_of (codes "ask " ++ (decimal limit ++ 32 ∷ query_text names.now query.now))) }
{
    print_pieces(
        sink,
        &[Piece::Text("ask "), Piece::Number(limit), Piece::Text(" ")],
        names,
    )?;
    print_query(sink, query, names)?;
    print_pieces(sink, &[Piece::Text("\n")], names)
}

/// Prints an event.
fn put_event<S: Sink>(sink: &mut S, event: &Event, names: &Names) -> Result<(), Failed>
    requires { EventBelow (length names.now) event.now }
    ensures { Prints S.got S.faults S.lent result sink.old sink.new (event_text names.now event.now) }
{
    match event {
        Event::Commit(edits) => put_commit(sink, edits.as_slice(), names),
        Event::Pin => print_pieces(sink, &[Piece::Text("pin\n")], names),
        Event::Unpin => print_pieces(sink, &[Piece::Text("unpin\n")], names),
        Event::Migrate { shard, n } => put_rows(sink, "migrate", *shard, *n, names),
        Event::Sweep { shard, n } => put_rows(sink, "sweep", *shard, *n, names),
        Event::Reclaim => print_pieces(sink, &[Piece::Text("reclaim\n")], names),
        Event::Look { rows } => print_pieces(
            sink,
            &[
                Piece::Text("look "),
                Piece::Number(*rows),
                Piece::Text("\n"),
            ],
            names,
        ),
    }
}

/// Prints a word and two numbers as a line.
fn put_rows<S: Sink>(
    sink: &mut S,
    word: &'static str,
    shard: u32,
    n: u64,
    names: &Names,
) -> Result<(), Failed>
    ensures { Prints S.got S.faults S.lent result sink.old sink.new (line_of (rows_text word.now shard n)) }
{
    print_pieces(
        sink,
        &[
            Piece::Text(word),
            Piece::Text(" "),
            Piece::Number(shard as u64),
            Piece::Text(" "),
            Piece::Number(n),
            Piece::Text("\n"),
        ],
        names,
    )
}

/// Prints a commit.
fn put_commit<S: Sink>(sink: &mut S, edits: &[Edit], names: &Names) -> Result<(), Failed>
    requires { All (λ edit. ItemBelow (length names.now) edit.item) edits.now }
    ensures { Prints S.got S.faults S.lent result sink.old sink.new
        (line_of (codes "commit")
        ++ (flat_map (λ edit. line_of (edit_text names.now edit)) edits.now ++ line_of (codes "end"))) }
{
    print_pieces(sink, &[Piece::Text("commit\n")], names)?;
    put_edits(sink, edits, names)?;
    print_pieces(sink, &[Piece::Text("end\n")], names)
}

/// Prints a line for each edit.
fn put_edits<S: Sink>(sink: &mut S, edits: &[Edit], names: &Names) -> Result<(), Failed>
    requires { All (λ edit. ItemBelow (length names.now) edit.item) edits.now }
    ensures { Prints S.got S.faults S.lent result sink.old sink.new
        (flat_map (λ edit. line_of (edit_text names.now edit)) edits.now) }
{
    for edit in edits {
        put_edit(sink, edit, names)?;
    }
    Ok(())
}

/// Prints an edit as a line.
fn put_edit<S: Sink>(sink: &mut S, edit: &Edit, names: &Names) -> Result<(), Failed>
    requires { ItemBelow (length names.now) edit.now.item }
    ensures { Prints S.got S.faults S.lent result sink.old sink.new (line_of (edit_text names.now edit.now)) }
{
    print_pieces(sink, &[Piece::Text(sign(edit.add))], names)?;
    put_item(sink, &edit.item, names)?;
    print_pieces(sink, &[Piece::Text("\n")], names)
}

/// What stands before what is added, or removed.
fn sign(add: bool) -> &'static str
    ensures { result.now ≡ (if add then codes "+ " else codes "- ") }
{
    if add { "+ " } else { "- " }
}

/// Prints what is added or removed.
fn put_item<S: Sink>(sink: &mut S, item: &Item, names: &Names) -> Result<(), Failed>
    requires { ItemBelow (length names.now) item.now }
    ensures { Prints S.got S.faults S.lent result sink.old sink.new (item_text names.now item.now) }
{
    match item {
        Item::Axiom(stated) => print_axiom(sink, stated, names),
        Item::Fact(fact) => print_fact(sink, *fact, names),
        Item::Class(n) => put_declared(sink, "Declaration(Class(", *n, names),
        Item::Property(n) => put_declared(sink, "Declaration(ObjectProperty(", *n, names),
    }
}

/// Prints a declaration, which opens so.
fn put_declared<S: Sink>(
    sink: &mut S,
    opening: &'static str,
    n: u32,
    names: &Names,
) -> Result<(), Failed>
    requires { n < length names.now }
    ensures { Prints S.got S.faults S.lent result sink.old sink.new
        (opening.now ++ (name_text names.now n ++ codes "))")) }
{
    print_pieces(
        sink,
        &[Piece::Text(opening), Piece::Name(n), Piece::Text("))")],
        names,
    )
}
