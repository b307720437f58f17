// The program: its words, its commands, and the endings without one.
ghost use Rattle.std.specs.Prelude.{◌≡◌, ◌≤◌, ◌⊎◌, map, string_bytes};
ghost use Rattle.dl_io.specs.Writing.{Gets, GetsPrefix};
ghost use Rattle.dl_run.specs.Defined.{Prints};
ghost use Rattle.dl_run.specs.Ending.{Printed, Ends};
ghost use Rattle.dl_run.specs.Texts.{usage_text, no_memory_text};
ghost use Rattle.dl_run.specs.Words.{HasSomeForm, HasNoForm, AskFor};

use crate::answer::answer_command;
use crate::status::Status;
use crate::texts::{NO_MEMORY, NOT_BUILT, USAGE};
use crate::words::{Form, form_of};
use dl_io::{Library, Sink, write_all};
use std::alloc::Global;

/// The program: the words after its name, the files and the output. It answers `Usage` exactly where
/// the words have no written form, and then takes no memory; the text of the written forms is written.
/// Where they have the form of `answer`, it ends as that command does; `run` and `gen` are refused as not built, and no
/// file is read. `WriteFault` overrides every other status.
pub fn quest<L: Library, S: Sink>(
    alloc: Global,
    words: &[String],
    files: &mut L,
    sink: &mut S,
) -> Status
    ensures ends { Ends (Prints (map string_bytes words.now)) (AskFor (map string_bytes words.now))
        (record {
          status = result;
          told_before = L.told files.old;
          told = L.told files.new;
          reads_before = L.faults files.old;
          reads = L.faults files.new;
          got_before = S.got sink.old;
          got = S.got sink.new;
          writes_before = S.faults sink.old;
          writes = S.faults sink.new;
        }) }

    // Words without a written form.
    ensures usage { result ≡ Status.Usage →
        HasNoForm (map string_bytes words.now) × Gets (S.got sink.old) (S.got sink.new) usage_text }
    ensures no_form { HasNoForm (map string_bytes words.now) →
        (result ≡ Status.Usage) ⊎
        ((result ≡ Status.WriteFault) × GetsPrefix (S.got sink.old) (S.got sink.new) usage_text) }
    ensures no_memory { result ≡ Status.NoMemory → HasSomeForm (map string_bytes words.now) }
{
    match form_of(words) {
        Form::Answer(answer) => answer_command(
            alloc,
            files,
            sink,
            answer.ontology,
            answer.facts,
            answer.query,
            answer.limit,
        ),
        Form::Run(_) => write_text(sink, Status::Refused, NOT_BUILT),
        Form::Gen(_) => write_text(sink, Status::Refused, NOT_BUILT),
        Form::Usage => write_text(sink, Status::Usage, USAGE),
    }
}

/// The ending where there was no memory even for the words.
pub fn without_memory<S: Sink>(sink: &mut S) -> Status
    ensures { Printed Status.NoMemory no_memory_text
        (S.got sink.old) (S.got sink.new) (S.faults sink.old) (S.faults sink.new) result }
{
    write_text(sink, Status::NoMemory, NO_MEMORY)
}

/// Writes a text, and answers the status that goes with it, or that writing failed.
fn write_text<S: Sink>(sink: &mut S, status: Status, text: &str) -> Status
    ensures printed { Printed status text.now
        (S.got sink.old) (S.got sink.new) (S.faults sink.old) (S.faults sink.new) result }
    ensures count { S.faults sink.old ≤ S.faults sink.new }
{
    match write_all(sink, text.as_bytes()) {
        Ok(()) => status,
        Err(_) => Status::WriteFault,
    }
}
