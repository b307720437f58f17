// Tables of folds, built.
use crate::hierarchy::hier_of;
use dl_hier::Hier;
use dl_names::NameSet;
use dl_query::{QueryFault, read_query};
use dl_terms::NoMemory;
use dl_tree::TreeTable;
use std::alloc::{AllocError, Global};
use std::io;

/// What `run` takes: a hierarchy as `hierarchy` makes it, a query whose first name is the number 0, and so on, and how
/// many tables to build.
pub const WORDS: &str = "trees deep|wide|tangle NAMES INCLUSIONS QUERY TABLES";

/// Builds tables of the query, and prints how many roles the rows of one have. False where the words say nothing, or a
/// number is out of range.
pub fn run<R: AllocGlobal + Print>(rt: &R, words: &[String]) -> io::Result<bool> {
    let (Some(shape), Some(names), Some(inclusions), Some(query), Some(tables)) = (
        words.get(1),
        words.get(2),
        words.get(3),
        words.get(4),
        words.get(5),
    ) else {
        return Ok(false);
    };
    let (Ok(names), Ok(inclusions), Ok(tables)) = (
        names.as_str().parse::<u32>(),
        inclusions.as_str().parse::<u32>(),
        tables.as_str().parse::<u32>(),
    ) else {
        return Ok(false);
    };
    if names == 0 {
        return Ok(false);
    }
    let made = hier_of(rt.alloc(), shape.as_str(), names, inclusions).map_err(
        |_refused| AllocError,
    )?;
    let Some(hier) = made else {
        return Ok(false);
    };
    let mut found = 0;
    for _ in 0..tables {
        match roles_in_rows(rt.alloc(), &hier, query.as_str().as_bytes()) {
            Some(count) => found = count,
            None => return Ok(false),
        }
    }
    println!(rt; "roles {} rows with {}", hier.roles().len(), found)?;
    Ok(true)
}

/// How many roles stand in the rows of the table of a query.
fn roles_in_rows(alloc: Global, hier: &Hier, text: &[u8]) -> Option<usize> {
    let mut names = NameSet::new(alloc);
    match read_query(alloc, text, &mut names) {
        Ok(query) => match TreeTable::build(alloc, hier, &query) {
            Ok(table) => Some(count_of(&table)),
            Err(_) => None,
        },
        Err(_) => None,
    }
}

fn count_of(table: &TreeTable) -> usize {
    let mut count = 0usize;
    for set in 0..=255u8 {
        count = count.wrapping_add(table.roles(set).len());
    }
    count
}
