// What the lines of a stream file say.
ghost use Rattle.std.specs.Prelude.{◌≡◌, option_map};
ghost use Rattle.dl_stream.specs.Forms as forms;
ghost use Rattle.dl_stream.specs.Parts.{said};

use crate::cut::cut;
use crate::number::{number_within, shard_and_rows};
use dl_event::Event;

const DEFAULT_LIMIT: u64 = 10_000;

const MAX_LIMIT: u64 = 1_000_000;

const MAX_LOOKED: u64 = 100_000;

const STREAM: &[u8] = b"stream";

const COMMIT: &[u8] = b"commit";

const END: &[u8] = b"end";

const PIN: &[u8] = b"pin";

const UNPIN: &[u8] = b"unpin";

const RECLAIM: &[u8] = b"reclaim";

const PLUS: &[u8] = b"+";

const MINUS: &[u8] = b"-";

const ASK: &[u8] = b"ask";

const LOOK: &[u8] = b"look";

const MIGRATE: &[u8] = b"migrate";

const SWEEP: &[u8] = b"sweep";

/// What a line says.
#[derive(Drop)]
pub(crate) enum Form<'a> {
    /// A stream begins.
    Begins,
    /// A commit begins.
    Opens,
    /// What the text says is added, or it is removed.
    Edits { add: bool, text: &'a [u8] },
    /// The commit ends.
    Closes,
    /// An event is put to the store.
    Puts(Event),
    /// The query of the text is asked, with at most so many answers.
    Asks { limit: u64, text: &'a [u8] },
}

/// What a line says, if it has one of the forms.
pub(crate) fn form_of(line: &[u8]) -> Option<Form<'_>>
    ensures { option_map said result ≡ forms.form_of line.now }
{
    let (word, rest) = cut(line, b' ');
    match rest {
        Some(rest) => rest_form(word, rest),
        None => word_form(word),
    }
}

/// What a line of one word says.
fn word_form(word: &[u8]) -> Option<Form<'_>>
    ensures { option_map said result ≡ forms.word_form word.now }
{
    if STREAM == word {
        Some(Form::Begins)
    } else if COMMIT == word {
        Some(Form::Opens)
    } else if END == word {
        Some(Form::Closes)
    } else if PIN == word {
        Some(Form::Puts(Event::Pin))
    } else if UNPIN == word {
        Some(Form::Puts(Event::Unpin))
    } else if RECLAIM == word {
        Some(Form::Puts(Event::Reclaim))
    } else {
        None
    }
}

/// What a line says that has a word, a space and a rest.
fn rest_form<'a>(word: &[u8], rest: &'a [u8]) -> Option<Form<'a>>
    ensures { option_map said result ≡ forms.rest_form word.now rest.now }
{
    if PLUS == word {
        Some(Form::Edits {
            add: true,
            text: rest,
        })
    } else if MINUS == word {
        Some(Form::Edits {
            add: false,
            text: rest,
        })
    } else if ASK == word {
        ask_form(rest)
    } else if LOOK == word {
        look_form(rest)
    } else if MIGRATE == word {
        migrate_form(rest)
    } else if SWEEP == word {
        sweep_form(rest)
    } else {
        None
    }
}

fn look_form(rest: &[u8]) -> Option<Form<'_>>
    ensures { option_map said result ≡ forms.look_form rest.now }
{
    let rows = number_within(0, MAX_LOOKED, rest)?;
    Some(Form::Puts(Event::Look { rows }))
}

fn migrate_form(rest: &[u8]) -> Option<Form<'_>>
    ensures { option_map said result ≡ forms.migrate_form rest.now }
{
    let (shard, n) = shard_and_rows(rest)?;
    Some(Form::Puts(Event::Migrate { shard, n }))
}

fn sweep_form(rest: &[u8]) -> Option<Form<'_>>
    ensures { option_map said result ≡ forms.sweep_form rest.now }
{
    let (shard, n) = shard_and_rows(rest)?;
    Some(Form::Puts(Event::Sweep { shard, n }))
}

fn ask_form(rest: &[u8]) -> Option<Form<'_>>
    ensures { option_map said result ≡ forms.ask_form rest.now }
{
    if is_digit_next(rest) {
        limit_form(rest)
    } else {
        Some(Form::Asks {
            limit: DEFAULT_LIMIT,
            text: rest,
        })
    }
}

/// What `ask` says with a limit, a space and a text.
fn limit_form(rest: &[u8]) -> Option<Form<'_>>
    ensures { option_map said result ≡ forms.limit_form rest.now }
{
    let (word, text) = cut(rest, b' ');
    let text = text?;
    let limit = number_within(1, MAX_LIMIT, word)?;
    Some(Form::Asks { limit, text })
}

/// Whether a digit stands next.
fn is_digit_next(bytes: &[u8]) -> bool
    ensures { result ≡ forms.is_digit_next bytes.now }
{
    match bytes.first() {
        Some(byte) => byte.is_ascii_digit(),
        None => false,
    }
}
