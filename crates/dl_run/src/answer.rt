// The command `answer`: its three files, the store that is asked, and what is written.
ghost use Rattle.std.specs.Prelude.{◌≡◌, ◌≤◌, ◌∷◌, [], ℕ, List, OnOk, OnErr, Err};
ghost use Rattle.std.specs.List.{Contains};
ghost use Rattle.dl_io.specs.Count.{HasRisen, NoneFalls};
ghost use Rattle.dl_io.specs.Writing.{Gets, GetsPrefix};
ghost use Rattle.dl_terms.specs.Queries.{IsWellFormed};
ghost use Rattle.dl_terms.specs.declared.query.Query.{Query as Asked};
ghost use Rattle.dl_run.specs.Answered.{shards, AnswerOf, Gives, AnswersAsked, IsNoAnswer, RepliesTo, status_of, text_of};
ghost use Rattle.dl_run.specs.Ending.{Says, Printed, Ends};
ghost use Rattle.dl_run.specs.Input.{AllFit};
ghost use Rattle.dl_run.specs.Numbered.{base_of, IsMade};
ghost use Rattle.dl_run.specs.declared.base.NumberedBase.{NumberedBase as Base};

use crate::answers::Answers;
use crate::base::NumberedBase;
use crate::files::read_file;
use crate::input::{numbered, read_base};
use crate::output::print_output;
use crate::status::Status;
use crate::stop::{InputFile, Refusal, Stop};
use crate::store::reader_of;
use crate::words::AnswerWords;
use dl_answer::{AskFault, ask};
use dl_io::{Failed, GATHERED, GatheringSink, Library, Sink};
use dl_names::NameSet;
use dl_query::read_query;
use dl_terms::Query;
use std::alloc::Global;
use std::mem::forget;

/// The command `answer`: writes the certain answers to a query over an ontology and facts, or the first broken axiom,
/// or why there are none, and says how that ended. The three names are those of files, which are read whole,
/// in the order of the words, before any is read for faults. `limit` is the most answers that are
/// written. `Usage` never comes, and `NoMemory` may come at any time. Where the library doesn't tell
/// its files, nothing is said of the texts of `Done` and `Refused`. `WriteFault` overrides every other
/// status. The memory of its answers goes back with the process: a program that calls it again and again grows.
pub fn answer_command<L: Library, S: Sink>(
    alloc: Global,
    files: &mut L,
    sink: &mut S,
    ontology: &str,
    facts: &str,
    query: &str,
    limit: u64,
) -> Status
    ensures ends { Ends (AnswerOf ontology.now facts.now query.now limit)
        (Contains (ontology.now ∷ facts.now ∷ query.now ∷ []))
        (record {
          status = result;
          told_before = L.told files.old;
          told = L.told files.new;
          reads_before = L.faults files.old;
          reads = L.faults files.new;
          got_before = S.got sink.old;
          got = S.got sink.new;
          writes_before = S.faults sink.old;
          writes = S.faults sink.new;
        }) }
    ensures usage { result ≡ Status.Usage → ⊥ }
{
    let words = AnswerWords {
        ontology,
        facts,
        query,
        limit,
    };
    let mut gathered = Vec::new(alloc);
    let output = answers_of(alloc, files, &words, &mut gathered);
    let status = write_output(sink, &mut gathered, &output);
    // The process ends behind the command, and its memory goes back as a whole: letting a million names go one by one
    // takes longer than printing them.
    forget(output);
    status
}

/// The answers of `answer` for its three files, which are read whole, in the order of the words. All
/// that printing them takes is made before: `gathered` gets its room here, and stays empty.
fn answers_of<L: Library>(
    alloc: Global,
    files: &mut L,
    words: &AnswerWords<'_>,
    gathered: &mut Vec<u8>,
) -> Result<Answers, Stop>
    ensures says { Says
        (AnswerOf words.now.ontology.now words.now.facts.now words.now.query.now words.now.limit)
        (L.told files.old)
        ((name : List ℕ)
        × Contains (words.now.ontology.now ∷ words.now.facts.now ∷ words.now.query.now ∷ []) name
        × HasRisen (L.faults files.old name) (L.faults files.new name))
        (status_of result) (text_of result) }
    ensures gathered { gathered.new.items ≡ gathered.old.items }
    ensures unchanged { L.told files.new ≡ L.told files.old }
    ensures count { NoneFalls (L.faults files.old) (L.faults files.new) }
{
    let ontology = read_file(alloc, files, words.ontology, InputFile::Ontology)?;
    let facts = read_file(alloc, files, words.facts, InputFile::Data)?;
    let query = read_file(alloc, files, words.query, InputFile::Query)?;
    let (base, asked) = asked_of(alloc, ontology, facts, query)?;
    gathered.reserve(GATHERED)?;
    answers_for(alloc, base, &asked, words.limit)
}

/// What the bytes of the three files ask, or the first fault of them. Ontology, data and query are read in this order.
/// The bytes of the first two are let go once they are read: what comes behind needs no more memory than they had.
fn asked_of(
    alloc: Global,
    ontology: Vec<u8>,
    facts: Vec<u8>,
    query: Vec<u8>,
) -> Result<(NumberedBase, Query), Stop>
    requires { AllFit ontology.items facts.items query.items }
    ensures { Gives ontology.items facts.items query.items result }
{
    let mut names = NameSet::new(alloc);
    let (document, triples) = read_base(alloc, ontology.as_slice(), facts.as_slice(), &mut names)?;
    let read = read_query(alloc, query.as_slice(), &mut names)?;
    drop(facts);
    drop(ontology);
    let (base, ranks) = numbered(names, document, triples)?;
    let mut asked = read;
    ranks.rank_query(&mut asked);
    Ok((base, asked))
}

/// The answers to what is asked, or the first broken axiom, unless the load passes a limit of the store or the answers
/// are more than the limit.
fn answers_for(
    alloc: Global,
    base: NumberedBase,
    query: &Query,
    limit: u64,
) -> Result<Answers, Stop>
    requires made { IsMade base }
    requires well_formed { IsWellFormed query.now }
    ensures { RepliesTo (base_of shards base) query.now limit result }
{
    let mut reads = reader_of(alloc, &base)?;
    match ask(alloc, &mut reads, query, limit, base.nothing) {
        Ok(answer) => Ok(Answers {
            names: base.names,
            facts: base.facts.len(),
            skipped: base.skipped,
            answer,
        }),
        Err(fault) => Err(stop_of(fault, limit)),
    }
}

/// Why there is no answer.
fn stop_of(fault: AskFault, limit: u64) -> Stop
    requires { (base : Base) × (query : Asked) × AnswersAsked base query limit (Err fault) }
    ensures { (base : Base) (query : Asked) → AnswersAsked base query limit (Err fault) →
        IsNoAnswer (base_of shards base) query limit result }
{
    match fault {
        AskFault::TooMany { .. } => Stop::Refused(Refusal::TooMany { limit }),
        AskFault::NoPin => unreachable!(),
        AskFault::NoMemory => Stop::NoMemory,
    }
}

/// The status of answers, or of what stands in their place.
fn status_of(output: &Result<Answers, Stop>) -> Status
    ensures { result ≡ status_of output.now }
{
    match output {
        Ok(_) => Status::Done,
        Err(Stop::Refused(_)) => Status::Refused,
        Err(Stop::ReadFault) => Status::ReadFault,
        Err(Stop::NoMemory) => Status::NoMemory,
    }
}

/// Writes answers, or what stands in their place, through a buffer that gathers the pieces. It takes
/// no memory.
fn write_output<S: Sink>(
    sink: &mut S,
    gathered: &mut Vec<u8>,
    output: &Result<Answers, Stop>,
) -> Status
    requires { gathered.old.items ≡ [] }
    ensures printed { Printed (status_of output.now) (text_of output.now)
        (S.got sink.old) (S.got sink.new) (S.faults sink.old) (S.faults sink.new) result }
    ensures count { S.faults sink.old ≤ S.faults sink.new }
{
    match print(sink, gathered, output) {
        Ok(()) => status_of(output),
        Err(_) => Status::WriteFault,
    }
}

/// Prints answers, or what stands in their place, through a buffer that gathers the pieces.
fn print<S: Sink>(
    sink: &mut S,
    gathered: &mut Vec<u8>,
    output: &Result<Answers, Stop>,
) -> Result<(), Failed>
    requires { gathered.old.items ≡ [] }
    ensures all { OnOk result (Gets (S.got sink.old) (S.got sink.new) (text_of output.now)) }
    ensures prefix { OnErr result
        (GetsPrefix (S.got sink.old) (S.got sink.new) (text_of output.now)) }
    ensures count { S.faults sink.old ≤ S.faults sink.new }
    ensures failed { OnErr result (HasRisen (S.faults sink.old) (S.faults sink.new)) }
{
    let mut out = GatheringSink::new(sink, gathered);
    print_output(&mut out, output)
}
