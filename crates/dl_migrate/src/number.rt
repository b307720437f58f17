// The number of a row's predicate in another epoch.
ghost use Rattle.std.specs.Prelude.{◌≡◌, ℕ, map, Some};
ghost use Rattle.dl_row.specs.Rows.{fact_in, name_at, number_of};
ghost use Rattle.dl_epoch.specs.Covering.{kept, epoch_in};
ghost use Rattle.dl_epoch.specs.Frozen.{IsFrozen, from_version};
ghost use Rattle.dl_migrate.specs.Moving.{CanMove, numbered_in, renumbered};
ghost use Rattle.dl_migrate.specs.Naming.{HasName, names_by, signed_by};

use dl_epoch::{Entry, Epoch};
use dl_row::{Kind, Row};

/// The row of the same fact in an epoch: its own one is found by its id.
pub fn moved_row(row: &Row, entries: &[Entry], to: &Epoch) -> Row
    requires { CanMove (map epoch_in (map kept entries.now)) to.now.signature row.now }
    ensures { (first : ℕ) → result
        ≡ renumbered (map epoch_in (map kept entries.now)) (from_version first to.now) row.now }
{
    for entry in entries {
        if entry.epoch.id() == row.epoch {
            return moved_from(row, &entry.epoch, to);
        }
    }
    *row
}

/// The row of the same fact in an epoch, where it has a number in its own one.
fn moved_from(row: &Row, from: &Epoch, to: &Epoch) -> Row
    requires { HasName (names_by row.now.kind from.now) (signed_by row.now.kind to.now.signature) row.now.number }
    ensures { (first since : ℕ) → result
        ≡ numbered_in (from_version first to.now) row.now (fact_in row.now (Some (from_version since from.now))) }
{
    let epoch = to.id();
    let number = match row.kind {
        Kind::Class => class_in(row.number, from, to),
        Kind::Role => role_in(row.number, from, to),
    };
    Row {
        number,
        epoch,
        ..*row
    }
}

/// The number, in one epoch, of the class that has a number in another one.
fn class_in(number: u32, from: &Epoch, to: &Epoch) -> u32
    requires frozen { IsFrozen to.now }
    requires named { HasName from.now.classes to.now.signature.classes number }
    ensures { (name : ℕ) → name_at from.now.classes number ≡ Some name
        → result ≡ number_of to.now.classes name }
{
    match to.class_number(from.class_name(number)) {
        Some(number) => number,
        None => unreachable!(),
    }
}

/// The number, in one epoch, of the role that has a number in another one.
fn role_in(number: u32, from: &Epoch, to: &Epoch) -> u32
    requires frozen { IsFrozen to.now }
    requires named { HasName from.now.roles to.now.signature.roles number }
    ensures { (name : ℕ) → name_at from.now.roles number ≡ Some name
        → result ≡ number_of to.now.roles name }
{
    match to.role_number(from.role_name(number)) {
        Some(number) => number,
        None => unreachable!(),
    }
}
