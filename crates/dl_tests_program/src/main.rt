// Rows of the whole program as data, which this program reads and compares; and tests of what no row shows: faults,
// pieces and want of memory.
#![tactic(auto)]

#[cfg(test)]
mod faults;
mod rows;
#[cfg(test)]
mod run;
mod spelling;
mod tables;
#[cfg(test)]
mod words;

use std::fs;

/// Files of rows.
const ROWS: &[&str] = &[
    "answers.rows",
    "denials.rows",
    "not_built.rows",
    "queries.rows",
    "refusals.rows",
    "unnamed.rows",
    "words.rows",
];

/// Files of texts with a fault each, and which file of the command such a text is.
const FAULTS: &[(&str, &str)] = &[
    ("data.faults", "d"),
    ("ontology.faults", "o"),
    ("query.faults", "q"),
];

fn main(rt: HostRuntime) -> std::io::Result<()> {
    for name in ROWS {
        let text = fs::read_to_string(&rt, name)?;
        rows::run_all(&rt, text.as_str())?;
    }
    for (name, file) in FAULTS {
        let text = fs::read_to_string(&rt, name)?;
        let count = tables::refused(&rt, file, text.as_str())?;
        println!(rt; "{name}: {count} as expected")?;
    }
    let text = fs::read_to_string(&rt, "words.forms")?;
    let count = tables::formed(&rt, text.as_str())?;
    println!(rt; "words.forms: {count} as expected")
}
