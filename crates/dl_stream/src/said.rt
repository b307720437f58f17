// What comes of what a line says, at its place.
ghost use Rattle.std.specs.Prelude.{◌≡◌, ◌≢◌, ◌<◌, ℕ, List};
ghost use Rattle.dl_names.specs.NameList.{Text, Extends};
ghost use Rattle.dl_query.specs.declared.fault.QueryFault.{QueryFault};
ghost use Rattle.dl_stream.specs.Forms as forms;
ghost use Rattle.dl_stream.specs.Reading.{outside, max_commands, query_kind};
ghost use Rattle.dl_stream.specs.Parts.{said, shown, in_open, in_open_commit, Comes, IsCounted, IsCountedAt};

use crate::edits::read_edits;
use crate::fault::{Kind, StreamFault};
use crate::form::Form;
use crate::place::{Open, Place};
use crate::streams::Command;
use dl_event::{Edit, Event};
use dl_names::NameSet;
use dl_query::{QueryFault, read_query};
use dl_terms::List;
use std::alloc::Global;

const MAX_STREAMS: usize = 64;

const MAX_COMMANDS: u64 = 1_048_576;

/// The place behind a line with this number that says this.
pub(crate) fn line_then(
    alloc: Global,
    form: Form,
    n: u64,
    names: &mut NameSet,
    place: Place,
) -> Result<Place, StreamFault>
    requires { IsCountedAt place }
    ensures comes { Comes n names.old (said form.entry) (shown place) names.new result }
    ensures grows { Extends names.old names.new }
{
    match place {
        Place::Outside => outside_then(alloc, form, n),
        Place::InStream(stream) => stream_then(alloc, form, n, names, stream),
        Place::InCommit { stream, at, made } => commit_then(
            alloc, form, n, names, stream, at, made,
        ),
    }
}

/// The fault of a line that has none of the forms, or may not stand there.
pub(crate) fn misplaced(n: u64) -> StreamFault
    ensures { result ≡ StreamFault.Line n Kind.Form }
{
    StreamFault::Line {
        n,
        kind: Kind::Form,
    }
}

/// Before the first stream.
fn outside_then(alloc: Global, form: Form, n: u64) -> Result<Place, StreamFault>
    ensures { (names : List Text) → Comes n names (said form.entry) outside names result }
{
    match form {
        Form::Begins => Ok(Place::InStream(Open {
            before: List::new(alloc),
            commands: List::new(alloc),
            count: 0,
        })),
        Form::Opens => Err(misplaced(n)),
        Form::Edits { .. } => Err(misplaced(n)),
        Form::Closes => Err(misplaced(n)),
        Form::Puts(_) => Err(misplaced(n)),
        Form::Asks { .. } => Err(misplaced(n)),
    }
}

/// In a stream.
fn stream_then(
    alloc: Global,
    form: Form,
    n: u64,
    names: &mut NameSet,
    stream: Open,
) -> Result<Place, StreamFault>
    requires { IsCounted stream }
    ensures comes { Comes n names.old (said form.entry) (in_open stream) names.new result }
    ensures grows { Extends names.old names.new }
{
    match form {
        Form::Begins => next_stream(alloc, n, stream),
        Form::Opens => open_commit(alloc, n, stream),
        Form::Edits { .. } => Err(misplaced(n)),
        Form::Closes => Err(misplaced(n)),
        Form::Puts(event) => put(n, stream, event),
        Form::Asks { limit, text } => ask(alloc, n, names, stream, limit, text),
    }
}

/// In a commit.
fn commit_then(
    alloc: Global,
    form: Form,
    n: u64,
    names: &mut NameSet,
    stream: Open,
    at: u64,
    made: List<Edit>,
) -> Result<Place, StreamFault>
    requires counted { IsCounted stream }
    requires few { stream.count < max_commands }
    ensures comes { Comes n names.old (said form.entry) (in_open_commit stream at made) names.new result }
    ensures grows { Extends names.old names.new }
{
    match form {
        Form::Begins => Err(misplaced(n)),
        Form::Opens => Err(misplaced(n)),
        Form::Edits { add, text } => edit(alloc, add, text, n, names, stream, at, made),
        Form::Closes => close_commit(n, stream, at, made),
        Form::Puts(_) => Err(misplaced(n)),
        Form::Asks { .. } => Err(misplaced(n)),
    }
}

/// The next stream begins.
fn next_stream(alloc: Global, n: u64, stream: Open) -> Result<Place, StreamFault>
    requires { IsCounted stream }
    ensures { (names : List Text) → Comes n names forms.begins (in_open stream) names result }
{
    let mut before = stream.before;
    if before.len() >= MAX_STREAMS - 1 {
        return Err(StreamFault::Line {
            n,
            kind: Kind::TooManyStreams,
        });
    }
    let Ok(()) = before.push(stream.commands) else {
        return Err(StreamFault::NoMemory);
    };
    Ok(Place::InStream(Open {
        before,
        commands: List::new(alloc),
        count: stream.count,
    }))
}

/// A command begins that is one too many.
fn too_many_commands(n: u64) -> StreamFault
    ensures { result ≡ StreamFault.Line n Kind.TooManyCommands }
{
    StreamFault::Line {
        n,
        kind: Kind::TooManyCommands,
    }
}

/// A commit begins.
fn open_commit(alloc: Global, n: u64, stream: Open) -> Result<Place, StreamFault>
    requires { IsCounted stream }
    ensures { (names : List Text) → Comes n names forms.opens (in_open stream) names result }
{
    if stream.count >= MAX_COMMANDS {
        return Err(too_many_commands(n));
    }
    Ok(Place::InCommit {
        stream,
        at: n,
        made: List::new(alloc),
    })
}

/// An event is put.
fn put(n: u64, stream: Open, event: Event) -> Result<Place, StreamFault>
    requires { IsCounted stream }
    ensures { (names : List Text) → Comes n names (forms.puts event) (in_open stream) names result }
{
    if stream.count >= MAX_COMMANDS {
        return Err(too_many_commands(n));
    }
    let mut stream = stream;
    let Ok(()) = stream.commands.push(Command::Put(event)) else {
        return Err(StreamFault::NoMemory);
    };
    stream.count += 1;
    Ok(Place::InStream(stream))
}

/// A query is asked.
fn ask(
    alloc: Global,
    n: u64,
    names: &mut NameSet,
    stream: Open,
    limit: u64,
    text: &[u8],
) -> Result<Place, StreamFault>
    requires { IsCounted stream }
    ensures comes { Comes n names.old (forms.asks limit text.now) (in_open stream) names.new result }
    ensures grows { Extends names.old names.new }
{
    if stream.count >= MAX_COMMANDS {
        return Err(too_many_commands(n));
    }
    let mut stream = stream;
    let query = match read_query(alloc, text, names) {
        Ok(query) => query,
        Err(fault) => return Err(query_fault(n, fault)),
    };
    let Ok(()) = stream.commands.push(Command::Ask { query, limit }) else {
        return Err(StreamFault::NoMemory);
    };
    stream.count += 1;
    Ok(Place::InStream(stream))
}

/// The fault of a line with this number by that of its query.
fn query_fault(n: u64, fault: QueryFault) -> StreamFault
    ensures none { fault ≡ QueryFault.NoMemory → result ≡ StreamFault.NoMemory }
    ensures some { fault ≢ QueryFault.NoMemory → result ≡ StreamFault.Line n (query_kind fault) }
{
    let kind = match fault {
        QueryFault::NoMemory => return StreamFault::NoMemory,
        QueryFault::TooManyNames { .. } => Kind::TooManyNames,
        _ => Kind::Query,
    };
    StreamFault::Line { n, kind }
}

/// Edits are made.
fn edit(
    alloc: Global,
    add: bool,
    text: &[u8],
    n: u64,
    names: &mut NameSet,
    stream: Open,
    at: u64,
    made: List<Edit>,
) -> Result<Place, StreamFault>
    requires counted { IsCounted stream }
    requires few { stream.count < max_commands }
    ensures comes { Comes n names.old (forms.edits add text.now) (in_open_commit stream at made) names.new result }
    ensures grows { Extends names.old names.new }
{
    let mut made = made;
    match read_edits(alloc, add, text, n, names, &mut made) {
        Ok(()) => Ok(Place::InCommit { stream, at, made }),
        Err(fault) => Err(fault),
    }
}

/// The commit ends.
fn close_commit(n: u64, stream: Open, at: u64, made: List<Edit>) -> Result<Place, StreamFault>
    requires counted { IsCounted stream }
    requires few { stream.count < max_commands }
    ensures { (names : List Text) →
        Comes n names forms.closes (in_open_commit stream at made) names result }
{
    let mut stream = stream;
    let Ok(()) = stream.commands.push(Command::Put(Event::Commit(made))) else {
        return Err(StreamFault::NoMemory);
    };
    stream.count += 1;
    Ok(Place::InStream(stream))
}
