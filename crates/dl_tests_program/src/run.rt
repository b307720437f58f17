// The commands over files in memory: worked examples, the order of files and the limit.
ghost use Rattle.std.specs.Prelude.{None};

use crate::spelling::words_of;
use dl_io::{Failed, Library, SafeLibrary};
use dl_run::{Status, answer_command, quest, without_memory};
use dl_tests_base::files::{files_of, new_sink};
use std::alloc::{AllocError, Global};
use std::test::Fail;

/// A worked example: the words, the files with their names, and how it ends.
#[derive(Drop)]
pub(crate) struct Example {
    pub words: &'static str,
    pub files: &'static [(&'static str, &'static str)],
    pub status: Status,
    pub output: &'static str,
}

/// The words of `answer`.
pub(crate) const ANSWER: &str = "answer ontology.ofn data.nt query.q";

pub(crate) const SUBCLASS: Example = Example {
    words: ANSWER,
    files: &[
        ("ontology.ofn", "Ontology(SubClassOf(<A> <B>))"),
        (
            "data.nt",
            "<a> <http://www.w3.org/1999/02/22-rdf-syntax-ns#type> <A> .\n",
        ),
        ("query.q", "q(?x) :- <B>(?x)"),
    ],
    status: Status::Done,
    output: "facts 1 skipped 0\nanswers 1\n(<a>)\n",
};

pub(crate) const SUBCLASS_CYCLE: Example = Example {
    words: ANSWER,
    files: &[
        (
            "ontology.ofn",
            "Ontology(SubClassOf(<A> <B>) SubClassOf(<B> <A>))",
        ),
        (
            "data.nt",
            "<b> <http://www.w3.org/1999/02/22-rdf-syntax-ns#type> <A> .
<a> <http://www.w3.org/1999/02/22-rdf-syntax-ns#type> <B> .
<a> <http://www.w3.org/1999/02/22-rdf-syntax-ns#type> <A> .
",
        ),
        ("query.q", "q(?x) :- <A>(?x)"),
    ],
    status: Status::Done,
    output: "facts 3 skipped 0\nanswers 2\n(<a>)\n(<b>)\n",
};

/// Whether the program ends with this status for these words, and writes this output.
pub(crate) fn ends<L: Library>(
    alloc: Global,
    files: &mut L,
    words: &str,
    status: Status,
    output: &str,
) -> Result<bool, AllocError> {
    let words = words_of(alloc, words)?;
    let mut sink = new_sink(alloc)?;
    let ended = quest(alloc, words.as_slice(), files, &mut sink);
    Ok(ended == status && sink.bytes() == output.as_bytes())
}

/// Reads as its library does, and notes the name of each file that is begun.
#[derive(Drop)]
struct Noting {
    files: SafeLibrary,
    begun: String,
}

impl Library for Noting {
    ghost told = { λ _. None };

    ghost faults = { λ _ _. 0 };

    fn read(&mut self, name: &str, from: u64, buf: &mut [u8]) -> Result<usize, Failed> {
        if from == 0 {
            // A name that isn't noted for want of memory is missed below.
            let _ = self.begun.push_str(name);
            let _ = self.begun.push_str(" ");
        }
        self.files.read(name, from, buf)
    }
}

/// Whether the files of an example are begun in this order.
fn begins(alloc: Global, example: &Example, names: &str) -> Result<bool, AllocError> {
    let Some(files) = files_of(alloc, example.files)? else {
        return Ok(false);
    };
    let mut files = Noting {
        files: SafeLibrary::new(files),
        begun: String::new(alloc),
    };
    let ended = ends(
        alloc,
        &mut files,
        example.words,
        example.status,
        example.output,
    )?;
    Ok(ended && files.begun.as_str() == names)
}

#[test]
fn files_are_read_once_in_the_order_of_the_words(rt: HostRuntime) {
    assert!(rt;
        matches!(
            begins(rt.alloc(), &SUBCLASS, "ontology.ofn data.nt query.q "),
            Ok(true)
        )
    );
}

/// Whether the command ends with this status and output, with this limit, for two members of `A`.
fn two_members_end(
    alloc: Global,
    limit: u64,
    status: Status,
    output: &str,
) -> Result<bool, AllocError> {
    let Some(files) = files_of(alloc, SUBCLASS_CYCLE.files)? else {
        return Ok(false);
    };
    let mut files = SafeLibrary::new(files);
    let mut sink = new_sink(alloc)?;
    let (ontology, facts, query) = ("ontology.ofn", "data.nt", "query.q");
    let ended = answer_command(alloc, &mut files, &mut sink, ontology, facts, query, limit);
    Ok(ended == status && sink.bytes() == output.as_bytes())
}

#[test]
fn another_limit(rt: HostRuntime) {
    let all = two_members_end(rt.alloc(), 2, Status::Done, SUBCLASS_CYCLE.output);
    assert!(rt; matches!(all, Ok(true)));
    let over = "refused: more than 1 answers\n";
    let one = two_members_end(rt.alloc(), 1, Status::Refused, over);
    assert!(rt; matches!(one, Ok(true)));
}

#[test]
fn no_memory_for_the_words(rt: HostRuntime) -> Result<(), Fail> {
    let mut sink = new_sink(rt.alloc())?;
    let status = without_memory(&mut sink);
    assert!(rt; status == Status::NoMemory && status.code() == 5);
    assert!(rt; sink.bytes() == "no memory\n".as_bytes());
    Ok(())
}
