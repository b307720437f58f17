// Tables of folds: rows found by hand from the definition of tree witnesses.
use dl_hier::{Hier, fits};
use dl_names::NameSet;
use dl_query::read_query;
use dl_terms::{Base, Basic, List, NoMemory, Normal, Role, Signature};
use dl_tests_base::axioms::list_of;
use dl_tree::TreeTable;
use std::alloc::{AllocError, Global};

const P: Role = Role {
    base: Base::Named(0),
    inverse: false,
};

const P_INVERSE: Role = Role {
    base: Base::Named(0),
    inverse: true,
};

const S: Role = Role {
    base: Base::Named(1),
    inverse: false,
};

const S_INVERSE: Role = Role {
    base: Base::Named(1),
    inverse: true,
};

/// A query, and the rows of its table that aren't empty: the number of a set, and its roles.
struct Row {
    text: &'static str,
    rows: &'static [(u8, &'static [Role])],
}

const ROWS: [Row; 8] = [
    // A word of two roles: y at P, and z at P and S.
    Row {
        text: "q(?x) :- <P>(?x, ?y), <S>(?y, ?z)",
        rows: &[(2, &[S]), (3, &[P])],
    },
    // The same without a head: all three may begin at P, or at the inverse of P, behind which P may stand.
    Row {
        text: "q() :- <P>(?x, ?y), <S>(?y, ?z)",
        rows: &[
            (1, &[P_INVERSE]),
            (4, &[S]),
            (6, &[P]),
            (7, &[P, P_INVERSE]),
        ],
    },
    // At any depth: behind the inverse of P stands P, and then S.
    Row {
        text: "q() :- <S>(?y, ?z)",
        rows: &[
            (1, &[S_INVERSE]),
            (2, &[S]),
            (3, &[P, P_INVERSE, S, S_INVERSE]),
        ],
    },
    // Both outside neighbours stand at the root.
    Row {
        text: "q(?x, ?z) :- <P>(?x, ?y), <P>(?z, ?y)",
        rows: &[(1, &[P])],
    },
    // A name is an outside neighbour, and so is a variable of the head.
    Row {
        text: "q(?x) :- <S>(?y, <a>), <P>(?x, ?z)",
        rows: &[(1, &[S_INVERSE]), (2, &[P])],
    },
    // No word has a loop.
    Row {
        text: "q() :- <P>(?y, ?y)",
        rows: &[],
    },
    // Nothing below a role is in A.
    Row {
        text: "q(?x) :- <P>(?x, ?y), <A>(?y)",
        rows: &[],
    },
    // No existential variable.
    Row {
        text: "q(?x, ?y) :- <P>(?x, ?y)",
        rows: &[],
    },
];

/// A in some P, and what some P leads to in some S.
fn rows_of(alloc: Global) -> Result<Normal, NoMemory> {
    let mut concepts = List::new(alloc);
    concepts.push((Basic::Class(2), Basic::SomeOf(P)))?;
    concepts.push((Basic::SomeOf(P_INVERSE), Basic::SomeOf(S)))?;
    Ok(Normal {
        roles: List::new(alloc),
        concepts,
        negatives: List::new(alloc),
    })
}

fn signature_of(alloc: Global) -> Result<Signature, AllocError> {
    Ok(Signature {
        classes: list_of(alloc, &[2])?,
        roles: list_of(alloc, &[0, 1])?,
    })
}

fn hier_of(alloc: Global) -> Result<Option<Hier>, NoMemory> {
    let rows = rows_of(alloc)?;
    let signature = signature_of(alloc)?;
    let fit = fits(alloc, &rows, &signature)?;
    if !fit {
        return Ok(None);
    }
    let hier = Hier::build(alloc, &rows, &signature)?;
    Ok(Some(hier))
}

/// The table of a query in which P, S and A have the numbers 0, 1 and 2.
fn table_of(alloc: Global, hier: &Hier, text: &[u8]) -> Option<TreeTable> {
    let mut names = NameSet::new(alloc);
    match read_query(
        alloc,
        b"q() :- <P>(?x, ?y), <S>(?x, ?y), <A>(?x)",
        &mut names,
    ) {
        Ok(_) => read_table(alloc, hier, text, &mut names),
        Err(_) => None,
    }
}

fn read_table(alloc: Global, hier: &Hier, text: &[u8], names: &mut NameSet) -> Option<TreeTable> {
    match read_query(alloc, text, names) {
        Ok(query) => TreeTable::build(alloc, hier, &query).ok(),
        Err(_) => None,
    }
}

/// The roles that a row says of a number, or none.
fn expected(rows: &'static [(u8, &'static [Role])], set: u8) -> &'static [Role] {
    for row in rows {
        if row.0 == set {
            return row.1;
        }
    }
    &[]
}

fn has_rows(table: &TreeTable, rows: &'static [(u8, &'static [Role])]) -> bool {
    for set in 0..=255u8 {
        if table.roles(set) != expected(rows, set) {
            return false;
        }
    }
    true
}

fn is_row(alloc: Global, hier: &Hier, row: &Row) -> bool {
    match table_of(alloc, hier, row.text.as_bytes()) {
        Some(table) => has_rows(&table, row.rows),
        None => false,
    }
}

fn all_are(alloc: Global, hier: &Hier, rows: &[Row]) -> bool {
    for row in rows {
        if !is_row(alloc, hier, row) {
            return false;
        }
    }
    true
}

/// Whether the hierarchy fits, and the queries have their tables over it.
fn are_tables(alloc: Global, rows: &[Row]) -> bool {
    match hier_of(alloc) {
        Ok(Some(hier)) => all_are(alloc, &hier, rows),
        _ => false,
    }
}

#[test]
fn tables_have_the_roles_of_each_set(rt: HostRuntime) {
    assert!(rt; are_tables(rt.alloc(), &ROWS));
}
