// The written forms of the words.
ghost use Rattle.std.specs.Prelude.{◌≡◌, ◌∷◌, ◌++◌, [], ℕ, ◌+◌, ◌<◌, ◌≤◌, Bool, false, List, Option, codes, map, length, slice_get, string_bytes, not, position, MatchOption, IsTrue, ◌↔◌, Some};
ghost use Rattle.std.specs.List.{list_all, position_or_len};
ghost use Rattle.std.specs.Char.{is_ascii_digit};
ghost use Rattle.dl_names.specs.NameList.{Text};
ghost use Rattle.dl_run.specs.Words.{is_positional, IsNumber, AreWords};
ghost use Rattle.dl_run.specs.Options.{OptionThen};
ghost use Rattle.dl_run.specs.Forms.{IsFormOf};

/// How many answers `answer` prints at most, and how many shards `run` has, where no option says otherwise.
const DEFAULT_LIMIT: u64 = 10_000;

const DEFAULT_SHARDS: u64 = 4;

/// The most that the options and the numbers may be.
const MAX_LIMIT: u64 = 1_000_000;

const MAX_SHARDS: u64 = 64;

const MAX_NUMBER: u64 = 4_294_967_295;

const MAX_SIZE: u64 = 100_000;

/// The written form that words have, with the names of its files, its options and its numbers.
#[derive(Drop)]
pub enum Form<'a> {
    /// The command `answer`.
    Answer(AnswerWords<'a>),
    /// The command `run`.
    Run(RunWords<'a>),
    /// The command `gen`.
    Gen(GenWords),
    /// None of the written forms.
    Usage,
}

/// The words of `answer`: the names of its files, and how many answers it prints at most.
#[derive(Drop)]
pub struct AnswerWords<'a> {
    pub ontology: &'a str,
    pub facts: &'a str,
    pub query: &'a str,
    pub limit: u64,
}

/// The words of `run`: the names of its files, and how many shards it has.
#[derive(Drop)]
pub struct RunWords<'a> {
    pub ontology: &'a str,
    pub facts: &'a str,
    pub streams: &'a str,
    pub shards: u64,
}

/// The words of `gen`: a number and a size.
#[derive(Drop)]
pub struct GenWords {
    pub number: u64,
    pub size: u64,
}

/// Three names of files, and the number of the option among them, where it stands there.
#[derive(Drop)]
struct Files<'a> {
    first: &'a str,
    second: &'a str,
    third: &'a str,
    given: Option<u64>,
}

/// The form that the words have. It takes no memory.
pub fn form_of(words: &[String]) -> Form<'_>
    ensures { IsFormOf (map string_bytes words.now) result }
{
    let Some((command, rest)) = words.split_first() else {
        return Form::Usage;
    };
    let command = command.as_str();
    if is_text(command, "answer") {
        return answer_of(rest);
    }
    if is_text(command, "run") {
        return run_of(rest);
    }
    if is_text(command, "gen") {
        return gen_of(rest);
    }
    Form::Usage
}

/// The form that the words behind `answer` have.
fn answer_of(words: &[String]) -> Form<'_>
    ensures { IsFormOf (codes "answer" ∷ map string_bytes words.now) result }
{
    let Some(files) = files_among(words, "--limit", MAX_LIMIT) else {
        return Form::Usage;
    };
    Form::Answer(AnswerWords {
        ontology: files.first,
        facts: files.second,
        query: files.third,
        limit: files.given.unwrap_or(DEFAULT_LIMIT),
    })
}

/// The form that the words behind `run` have.
fn run_of(words: &[String]) -> Form<'_>
    ensures { IsFormOf (codes "run" ∷ map string_bytes words.now) result }
{
    let Some(files) = files_among(words, "--shards", MAX_SHARDS) else {
        return Form::Usage;
    };
    Form::Run(RunWords {
        ontology: files.first,
        facts: files.second,
        streams: files.third,
        shards: files.given.unwrap_or(DEFAULT_SHARDS),
    })
}

/// The form that the words behind `gen` have.
fn gen_of(words: &[String]) -> Form<'_>
    ensures { IsFormOf (codes "gen" ∷ map string_bytes words.now) result }
{
    let [number, size] = words else {
        return Form::Usage;
    };
    let Some(number) = number_of(number.as_str(), 0, MAX_NUMBER) else {
        return Form::Usage;
    };
    let Some(size) = number_of(size.as_str(), 1, MAX_SIZE) else {
        return Form::Usage;
    };
    Form::Gen(GenWords { number, size })
}

/// Three names, and anywhere among them an option with a number from 1 to `most`, once at most.
fn files_among<'a>(words: &'a [String], option: &str, most: u64) -> Option<Files<'a>>
    requires { (word : Text) → is_positional (option.now ++ word) ≡ false }
    ensures { MatchOption result
        ((files : List Text) (given : Option ℕ) →
        AreWords option.now most (map string_bytes words.now) files given → length files ≡ 3 → ⊥)
        (λ found. AreWords option.now most (map string_bytes words.now)
        (found.first.now ∷ found.second.now ∷ found.third.now ∷ []) found.given) }
{
    let (before, behind) = words.split_at(names_len(words));
    let (given, after) = option_then(behind, option, most)?;
    if names_len(after) < after.len() {
        return None;
    }
    if !are_three(before, after) {
        return None;
    }
    Some(Files {
        first: name_at(before, after, 0),
        second: name_at(before, after, 1),
        third: name_at(before, after, 2),
        given,
    })
}

/// Whether two lists of words have three in all.
fn are_three(before: &[String], after: &[String]) -> bool
    ensures { IsTrue result ↔ (length before.now + length after.now ≡ 3) }
{
    before.len() <= 3 && after.len() == 3 - before.len()
}

/// How many words are no options, up to the first that is one or is empty.
fn names_len(words: &[String]) -> usize
    ensures value { result ≡ position_or_len (λ w. not (is_positional (string_bytes w))) words.now }
    ensures within { result ≤ length words.now }
{
    names_end(words).unwrap_or(words.len())
}

/// Where the first word stands that is an option or empty.
fn names_end(words: &[String]) -> Option<usize>
    ensures { result ≡ position (λ w. not (is_positional (string_bytes w))) words.now }
{
    words.iter().position(|word| !is_positional(word.as_str()))
}

/// The option at the front, or that no words are left; and the words behind it.
fn option_then<'a>(
    words: &'a [String],
    option: &str,
    most: u64,
) -> Option<(Option<u64>, &'a [String])>
    ensures { MatchOption result
        ((given : Option ℕ) (rest : List Text) →
        OptionThen option.now most (map string_bytes words.now) given rest → ⊥)
        (λ found. OptionThen option.now most (map string_bytes words.now)
        found.0 (map string_bytes found.1.now)) }
{
    let Some((first, rest)) = words.split_first() else {
        return Some((None, words));
    };
    let first = first.as_str();
    if is_text(first, option) {
        let (word, rest) = rest.split_first()?;
        let number = number_of(word.as_str(), 1, most)?;
        return Some((Some(number), rest));
    }
    let number = joined_number(first, option, most)?;
    Some((Some(number), rest))
}

/// The number behind an option's name and `=`, all in one word.
fn joined_number(word: &str, option: &str, most: u64) -> Option<u64>
    ensures { MatchOption result
        ((digits : Text) (number : ℕ) →
        word.now ≡ option.now ++ 61 ∷ digits → IsNumber digits 1 most number → ⊥)
        (λ number. (digits : Text) × (word.now ≡ option.now ++ 61 ∷ digits) × IsNumber digits 1 most number) }
{
    let behind = word.strip_prefix(option)?;
    let digits = behind.strip_prefix('=')?;
    number_of(digits, 1, most)
}

/// Whether two texts are the same.
fn is_text(word: &str, other: &str) -> bool
    ensures { IsTrue result ↔ (word.now ≡ other.now) }
{
    word == other
}

/// The name at a place of two lists, one behind the other.
fn name_at<'a>(before: &'a [String], after: &'a [String], place: usize) -> &'a str
    requires { place < length before.now + length after.now }
    ensures { slice_get (map string_bytes before.now ++ map string_bytes after.now) place ≡ Some result.now }
{
    if place < before.len() {
        before[place].as_str()
    } else {
        after[place - before.len()].as_str()
    }
}

/// The number from `least` to `most` that a word spells in 1 to 10 decimal digits.
fn number_of(word: &str, least: u64, most: u64) -> Option<u64>
    ensures { MatchOption result ((number : ℕ) → IsNumber word.now least most number → ⊥)
        (IsNumber word.now least most) }
{
    if word.is_empty() || word.len() > 10 || !are_digits(word.as_bytes()) {
        return None;
    }
    let Ok(number) = word.parse::<u64>() else {
        return None;
    };
    if number < least || most < number {
        return None;
    }
    Some(number)
}

/// Whether all bytes are decimal digits.
fn are_digits(bytes: &[u8]) -> bool
    ensures { result ≡ list_all is_ascii_digit bytes.now }
{
    bytes.iter().all(|byte| is_digit(*byte))
}

fn is_digit(byte: u8) -> bool
    ensures { result ≡ is_ascii_digit byte }
{
    byte.is_ascii_digit()
}

/// Whether a word is no option: it isn't empty and doesn't begin with `-`.
fn is_positional(word: &str) -> bool
    ensures { result ≡ is_positional word.now }
{
    !word.is_empty() && !word.starts_with('-')
}
