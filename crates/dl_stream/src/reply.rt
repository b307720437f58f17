// The lines of replies, printed to a sink. It takes no memory.
ghost use Rattle.std.specs.Prelude.{◌++◌, ◌∷◌, [], length, map, codes};
ghost use Rattle.std.specs.List.{flat_map};
ghost use Rattle.std.specs.Fmt.{decimal};
ghost use Rattle.dl_text.specs.NameText.{AreBelow};
ghost use Rattle.dl_stream.specs.Lines.{predicate_lines, row_line, individuals};
ghost use Rattle.dl_stream.specs.Outcomes.{placed_line, refusal_words, dropped_words, count_words, shown_text, reply_text, reply_names};
ghost use Rattle.dl_stream.specs.Pieces.{row_start, row_rest};
ghost use Rattle.dl_io.specs.Printing.{Prints};

use dl_event::{Looked, Refusal, Reply};
use dl_io::{Failed, Sink};
use dl_names::Names;
use dl_row::{Kind, Row};
use dl_text::{Piece, print_pieces};

/// Prints what a stream was told at a place.
pub(crate) fn put_reply<S: Sink>(
    sink: &mut S,
    place: u64,
    reply: &Reply,
    names: &Names,
) -> Result<(), Failed>
    requires { AreBelow (length names.now) (reply_names reply.now) }
    ensures { Prints S.got S.faults S.lent result sink.old sink.new
        (reply_text names.now place reply.now) }
{
    match reply {
        Reply::Committed { version, epoch } => put_two(
            sink,
            place,
            "commit version",
            *version as u64,
            "epoch",
            *epoch as u64,
            names,
        ),
        Reply::Pinned { version } => put_one(sink, place, "pin version", *version as u64, names),
        Reply::Unpinned { version } => {
            put_one(sink, place, "unpin version", *version as u64, names)
        }
        Reply::Migrated { moved, left } => {
            put_two(sink, place, "migrate moved", *moved, "left", *left, names)
        }
        Reply::Swept { dropped, left } => {
            put_two(sink, place, "sweep dropped", *dropped, "left", *left, names)
        }
        Reply::Reclaimed { ids } => put_reclaimed(sink, place, ids.as_slice(), names),
        Reply::Looked(look) => put_looked(sink, place, look, names),
        Reply::Refused(refusal) => put_refusal(sink, place, *refusal, names),
    }
}

/// Prints why an event was refused at a place.
fn put_refusal<S: Sink>(
    sink: &mut S,
    place: u64,
    refusal: Refusal,
    names: &Names,
) -> Result<(), Failed>
    ensures { Prints S.got S.faults S.lent result sink.old sink.new
        (placed_line place (refusal_words refusal)) }
{
    match refusal {
        Refusal::TooManyAxioms { weight } => put_one(sink, place, "too many axioms", weight, names),
        Refusal::TooManyPredicates { count } => put_one(
            sink,
            place,
            "too many predicates",
            count,
            names,
        ),
        Refusal::TooManyEpochs { kept } => put_one(
            sink,
            place,
            "too many epochs",
            kept as u64,
            names,
        ),
        Refusal::Full { kept, new } => put_two(sink, place, "full kept", kept, "new", new, names),
        Refusal::PinOpen { version } => put_one(
            sink,
            place,
            "pin open version",
            version as u64,
            names,
        ),
        Refusal::NoPin => put_plain(sink, place, "no pin", names),
        Refusal::NoShard { shard } => put_one(sink, place, "no shard", shard as u64, names),
    }
}

/// Prints the line of a place in these words.
fn put_plain<S: Sink>(
    sink: &mut S,
    place: u64,
    words: &'static str,
    names: &Names,
) -> Result<(), Failed>
    ensures { Prints S.got S.faults S.lent result sink.old sink.new
        (placed_line place (words.now ∷ [])) }
{
    print_pieces(
        sink,
        &[
            Piece::Text("place "),
            Piece::Number(place),
            Piece::Text(" "),
            Piece::Text(words),
            Piece::Text("\n"),
        ],
        names,
    )
}

/// Prints the line of a place, with a number behind these words.
fn put_one<S: Sink>(
    sink: &mut S,
    place: u64,
    words: &'static str,
    number: u64,
    names: &Names,
) -> Result<(), Failed>
    ensures { Prints S.got S.faults S.lent result sink.old sink.new
        (placed_line place (words.now ∷ decimal number ∷ [])) }
{
    print_pieces(
        sink,
        &[
            Piece::Text("place "),
            Piece::Number(place),
            Piece::Text(" "),
            Piece::Text(words),
            Piece::Text(" "),
            Piece::Number(number),
            Piece::Text("\n"),
        ],
        names,
    )
}

/// Prints the line of a place, with two numbers, each behind its words.
fn put_two<S: Sink>(
    sink: &mut S,
    place: u64,
    words: &'static str,
    number: u64,
    next_words: &'static str,
    next: u64,
    names: &Names,
) -> Result<(), Failed>
    ensures { Prints S.got S.faults S.lent result sink.old sink.new
        (placed_line place (words.now ∷ decimal number ∷ next_words.now ∷ decimal next ∷ [])) }
{
    print_pieces(
        sink,
        &[
            Piece::Text("place "),
            Piece::Number(place),
            Piece::Text(" "),
            Piece::Text(words),
            Piece::Text(" "),
            Piece::Number(number),
            Piece::Text(" "),
            Piece::Text(next_words),
            Piece::Text(" "),
            Piece::Number(next),
            Piece::Text("\n"),
        ],
        names,
    )
}

/// Prints the line of a reclaim.
fn put_reclaimed<S: Sink>(
    sink: &mut S,
    place: u64,
    ids: &[u32],
    names: &Names,
) -> Result<(), Failed>
    ensures { Prints S.got S.faults S.lent result sink.old sink.new
        (placed_line place (codes "reclaim" ∷ dropped_words ids.now)) }
{
    print_pieces(
        sink,
        &[
            Piece::Text("place "),
            Piece::Number(place),
            Piece::Text(" reclaim"),
        ],
        names,
    )?;
    put_dropped(sink, ids, names)?;
    print_pieces(sink, &[Piece::Text("\n")], names)
}

/// Prints the ids of epochs that were dropped, each behind a space.
fn put_dropped<S: Sink>(sink: &mut S, ids: &[u32], names: &Names) -> Result<(), Failed>
    ensures { Prints S.got S.faults S.lent result sink.old sink.new
        (flat_map (λ word. 32 ∷ word) (dropped_words ids.now)) }
{
    if ids.is_empty() {
        return print_pieces(sink, &[Piece::Text(" none")], names);
    }
    put_ids(sink, ids, names)
}

/// Prints ids, each behind a space.
fn put_ids<S: Sink>(sink: &mut S, ids: &[u32], names: &Names) -> Result<(), Failed>
    ensures { Prints S.got S.faults S.lent result sink.old sink.new
        (flat_map (λ word. 32 ∷ word) (map decimal ids.now)) }
{
    for id in ids {
        print_pieces(sink, &[Piece::Text(" "), Piece::Number(*id as u64)], names)?;
    }
    Ok(())
}

/// Prints the lines of a look.
fn put_looked<S: Sink>(sink: &mut S, place: u64, look: &Looked, names: &Names) -> Result<(), Failed>
    requires { AreBelow (length names.now) (look.now.classes ++ (look.now.roles ++ flat_map individuals look.now.rows)) }
    ensures { Prints S.got S.faults S.lent result sink.old sink.new
        (placed_line place (count_words look.now) ++ shown_text names.now look.now) }
{
    put_counts(sink, place, look, names)?;
    put_predicates(sink, "class", look.classes.as_slice(), names)?;
    put_predicates(sink, "role", look.roles.as_slice(), names)?;
    put_rows(sink, look.epoch, look.rows.as_slice(), names)
}

/// Prints the counts of a look.
fn put_counts<S: Sink>(sink: &mut S, place: u64, look: &Looked, names: &Names) -> Result<(), Failed>
    ensures { Prints S.got S.faults S.lent result sink.old sink.new
        (placed_line place (count_words look.now)) }
{
    print_pieces(
        sink,
        &[
            Piece::Text("place "),
            Piece::Number(place),
            Piece::Text(" look version "),
            Piece::Number(look.version as u64),
            Piece::Text(" epoch "),
            Piece::Number(look.epoch as u64),
            Piece::Text(" epochs "),
            Piece::Number(look.epochs as u64),
            Piece::Text(" kept "),
            Piece::Number(look.kept),
            Piece::Text(" visible "),
            Piece::Number(look.visible),
            Piece::Text(" old "),
            Piece::Number(look.behind),
            Piece::Text("\n"),
        ],
        names,
    )
}

/// Prints predicates of one kind by number, which go from 1.
fn put_predicates<S: Sink>(
    sink: &mut S,
    word: &str,
    predicates: &[u32],
    names: &Names,
) -> Result<(), Failed>
    requires { AreBelow (length names.now) predicates.now }
    ensures { Prints S.got S.faults S.lent result sink.old sink.new
        (predicate_lines names.now word.now predicates.now) }
{
    for (i, predicate) in predicates.iter().enumerate() {
        print_pieces(
            sink,
            &[
                Piece::Text(word),
                Piece::Text(" "),
                Piece::Number(i as u64 + 1),
                Piece::Text(" "),
                Piece::Name(*predicate),
                Piece::Text("\n"),
            ],
            names,
        )?;
    }
    Ok(())
}

/// Prints a line for each row, where this is the current epoch.
fn put_rows<S: Sink>(sink: &mut S, current: u32, rows: &[Row], names: &Names) -> Result<(), Failed>
    requires { AreBelow (length names.now) (flat_map individuals rows.now) }
    ensures { Prints S.got S.faults S.lent result sink.old sink.new
        (flat_map (row_line names.now current) rows.now) }
{
    for row in rows {
        put_row(sink, current, row, names)?;
    }
    Ok(())
}

/// Prints the line of a row.
fn put_row<S: Sink>(sink: &mut S, current: u32, row: &Row, names: &Names) -> Result<(), Failed>
    requires { AreBelow (length names.now) (individuals row.now) }
    ensures { Prints S.got S.faults S.lent result sink.old sink.new
        (row_line names.now current row.now) }
{
    put_epoch(sink, current, row.epoch, names)?;
    put_fact(sink, row, names)
}

/// Prints what a row carries: the current epoch, or which other one.
fn put_epoch<S: Sink>(sink: &mut S, current: u32, carried: u32, names: &Names) -> Result<(), Failed>
    ensures { Prints S.got S.faults S.lent result sink.old sink.new
        (row_start current carried) }
{
    if carried == current {
        return print_pieces(sink, &[Piece::Text("row")], names);
    }
    print_pieces(
        sink,
        &[Piece::Text("old "), Piece::Number(carried as u64)],
        names,
    )
}

/// Prints what a row says, and ends its line.
fn put_fact<S: Sink>(sink: &mut S, row: &Row, names: &Names) -> Result<(), Failed>
    requires { AreBelow (length names.now) (individuals row.now) }
    ensures { Prints S.got S.faults S.lent result sink.old sink.new
        (row_rest names.now row.now) }
{
    let number = Piece::Number(row.number as u64);
    match row.kind {
        Kind::Class => print_pieces(
            sink,
            &[
                Piece::Text(" class "),
                number,
                Piece::Text(" "),
                Piece::Name(row.s),
                Piece::Text("\n"),
            ],
            names,
        ),
        Kind::Role => print_pieces(
            sink,
            &[
                Piece::Text(" role "),
                number,
                Piece::Text(" "),
                Piece::Name(row.s),
                Piece::Text(" "),
                Piece::Name(row.o),
                Piece::Text("\n"),
            ],
            names,
        ),
    }
}
