// Refusals in words.
ghost use Rattle.std.specs.Prelude.{◌≡◌, ◌++◌, codes};
ghost use Rattle.std.specs.Fmt.{decimal};
ghost use Rattle.dl_owl.specs.Causes.{construct_words};
ghost use Rattle.dl_run.specs.Refusals.{file_word, refusal_words};
ghost use Rattle.dl_run.specs.Pieces.{digits_of, text_of_words};

use crate::stop::{InputFile, Refusal};
use dl_core::MAX_ROWS;
use dl_epoch::MAX_WEIGHT;
use dl_hier::MAX_PREDICATES;
use dl_io::MAX_BYTES;
use dl_names::MAX_NAMES;
use dl_owl::Construct;

/// A refusal in words: its numbers, where it has them, and what stands before, between and behind them.
#[derive(Clone, Copy)]
pub(crate) struct Words {
    pub before: &'static str,
    pub number: Option<u64>,
    pub between: &'static str,
    pub second: Option<u64>,
    pub behind: &'static str,
    pub third: Option<u64>,
    pub last: &'static str,
}

/// The words of a refusal.
pub(crate) fn words_of(refusal: Refusal) -> Words
    ensures { text_of_words result ≡ refusal_words refusal }
{
    match refusal {
        Refusal::TooLong { file } => too_long(file),
        Refusal::OntologySyntax { at } => in_ontology(at, ": syntax"),
        Refusal::TooDeep { at } => in_ontology(at, ": too deep"),
        Refusal::PrefixUnknown { at } => in_ontology(at, ": unknown prefix"),
        Refusal::NotQl { at, what } => construct_words(at, ": not in OWL 2 QL: ", what),
        Refusal::LeftOut { at, what } => construct_words(at, ": left out: ", what),
        Refusal::OntologyReserved { at } => in_ontology(at, ": reserved name"),
        Refusal::NoTriple { line } => in_data(line, ": not a triple"),
        Refusal::BlankNode { line } => in_data(line, ": blank node"),
        Refusal::DataReserved { line } => in_data(line, ": reserved name"),
        Refusal::QuerySyntax { at } => in_query(at, ": syntax"),
        Refusal::QueryReserved { at } => in_query(at, ": reserved name"),
        Refusal::Unsafe { place } => counted("query head place ", place, " not in the body"),
        Refusal::TooLarge {
            atoms,
            existential,
            head,
        } => too_large(atoms, existential, head),
        Refusal::TooManyNames => counted("more than ", MAX_NAMES as u64, " names"),
        Refusal::TooHeavy { weight } => over("axiom weight ", weight, " over ", MAX_WEIGHT),
        Refusal::TooManyPredicates { count } => over(
            "",
            count,
            " predicates over ",
            MAX_PREDICATES as u64,
        ),
        Refusal::TooManyFacts { count } => over("", count, " facts over ", MAX_ROWS),
        Refusal::TooMany { limit } => counted("more than ", limit, " answers"),
    }
}

fn file_word(file: InputFile) -> &'static str
    ensures { result.now ≡ file_word file }
{
    match file {
        InputFile::Ontology => "ontology",
        InputFile::Data => "data",
        InputFile::Query => "query",
    }
}

/// Words with one number at most, in one piece before it and two behind it.
fn pieces(
    before: &'static str,
    number: Option<u64>,
    between: &'static str,
    behind: &'static str,
) -> Words
    ensures { text_of_words result ≡ before.now ++ (digits_of number ++ (between.now ++ behind.now)) }
{
    Words {
        before,
        number,
        between,
        second: None,
        behind,
        third: None,
        last: "",
    }
}

/// The words of a file that is too long, with the length that it may have.
fn too_long(file: InputFile) -> Words
    ensures { text_of_words result ≡ refusal_words (Refusal.TooLong file) }
{
    Words {
        before: file_word(file),
        number: None,
        between: " longer than ",
        second: Some(MAX_BYTES as u64),
        behind: " bytes",
        third: None,
        last: "",
    }
}

/// The words of a number that is over its limit.
fn over(before: &'static str, number: u64, between: &'static str, limit: u64) -> Words
    ensures { text_of_words result ≡ before.now ++ (decimal number ++ (between.now ++ decimal limit)) }
{
    Words {
        before,
        number: Some(number),
        between,
        second: Some(limit),
        behind: "",
        third: None,
        last: "",
    }
}

/// Words around a number.
fn counted(before: &'static str, number: u64, behind: &'static str) -> Words
    ensures { text_of_words result ≡ before.now ++ (decimal number ++ behind.now) }
{
    pieces(before, Some(number), "", behind)
}

/// The words of a fault at a byte of the ontology.
fn in_ontology(at: usize, behind: &'static str) -> Words
    ensures { text_of_words result ≡ codes "ontology byte " ++ (decimal at ++ behind.now) }
{
    counted("ontology byte ", at as u64, behind)
}

/// The words of a construct at a byte of the ontology, and why it is refused.
fn construct_words(at: usize, why: &'static str, what: Construct) -> Words
    ensures { text_of_words result ≡
        codes "ontology byte " ++ (decimal at ++ (why.now ++ construct_words what)) }
{
    pieces("ontology byte ", Some(at as u64), why, what.text())
}

/// The words of a fault in a line of the data.
fn in_data(line: u64, behind: &'static str) -> Words
    ensures { text_of_words result ≡ codes "data line " ++ (decimal line ++ behind.now) }
{
    counted("data line ", line, behind)
}

/// The words of a fault at a byte of the query.
fn in_query(at: usize, behind: &'static str) -> Words
    ensures { text_of_words result ≡ codes "query byte " ++ (decimal at ++ behind.now) }
{
    counted("query byte ", at as u64, behind)
}

/// The words of a query that is too large.
fn too_large(atoms: u64, existential: u64, head: u64) -> Words
    ensures { text_of_words result ≡ refusal_words (Refusal.TooLarge atoms existential head) }
{
    Words {
        before: "query has ",
        number: Some(atoms),
        between: " atoms, ",
        second: Some(existential),
        behind: " existential variables, ",
        third: Some(head),
        last: " head places",
    }
}
