use dl_lex::TokenKind::{
    Caret, Close, End, Equals, Iri, Lang, Node, Number, Open, Short, Text, Word,
};
use dl_lex::{Keyword, LexFault, Lexer, Token, TokenKind};

/// Bytes, their tokens as kind, start and end, and the offset of the fault after them, if one comes.
const TABLE: &[(&[u8], &[(TokenKind, usize, usize)], Option<usize>)] = &[
    (b"", &[(End, 0, 0)], None),
    (
        b"SubClassOf(:A <b>)",
        &[
            (Word(Keyword::SubClassOf), 0, 10),
            (Open, 10, 11),
            (Short, 11, 13),
            (Iri, 14, 17),
            (Close, 17, 18),
            (End, 18, 18),
        ],
        None,
    ),
    (b"<>", &[(Iri, 0, 2), (End, 2, 2)], None),
    (
        b": a: :b a:b:c _: _:x",
        &[
            (Short, 0, 1),
            (Short, 2, 4),
            (Short, 5, 7),
            (Short, 8, 13),
            (Short, 14, 16),
            (Node, 17, 20),
            (End, 20, 20),
        ],
        None,
    ),
    (b"=^^", &[(Equals, 0, 1), (Caret, 1, 3), (End, 3, 3)], None),
    (b"^^^", &[(Caret, 0, 2)], Some(2)),
    (b" ^ ", &[], Some(1)),
    (
        b"\"a\\\"\\\\\n\"@en-x",
        &[(Text, 0, 8), (Lang, 8, 13), (End, 13, 13)],
        None,
    ),
    (b"\"\\x\"", &[], Some(0)),
    (b"\"open\\\"", &[], Some(0)),
    (b"<open", &[], Some(0)),
    (b"<a b>", &[], Some(0)),
    (b"@", &[], Some(0)),
    (b"@ en", &[], Some(0)),
    (b"#x\r12", &[(Number, 3, 5), (End, 5, 5)], None),
    (b"#x\n007", &[(Number, 3, 6), (End, 6, 6)], None),
    (b"# \xC3\xA9", &[(End, 4, 4)], None),
    (b"#ab\xFF12", &[], Some(3)),
    (b"\xEF\xBB\xBFOntology", &[], Some(0)),
    (
        b"<\xC3\xA9\xE2\x82\xAC\xF0\x9F\x98\x80>",
        &[(Iri, 0, 11), (End, 11, 11)],
        None,
    ),
    (
        b"a:\xC3\xA9\xE2\x82\xAC\xF0\x9F\x98\x80",
        &[(Short, 0, 11), (End, 11, 11)],
        None,
    ),
    (b"<\xC0\xAF>", &[], Some(0)),
    (b"<\xED\xA0\x80>", &[], Some(0)),
    (b"a:\xED\xA0\x80", &[(Short, 0, 2)], Some(2)),
    (b"a:\xF4\x90\x80\x80", &[(Short, 0, 2)], Some(2)),
    (b"a:\xE2\x82", &[(Short, 0, 2)], Some(2)),
    (b"\"\x80\"", &[], Some(0)),
    (
        b"ObjectInverseOf",
        &[(Word(Keyword::ObjectInverseOf), 0, 15), (End, 15, 15)],
        None,
    ),
    (b"ObjectInverseof", &[], Some(0)),
    (b"7a", &[], Some(0)),
    (b"{", &[], Some(0)),
    (
        b"DataOneOf#c\n\t(",
        &[
            (Word(Keyword::DataOneOf), 0, 9),
            (Open, 13, 14),
            (End, 14, 14),
        ],
        None,
    ),
    (
        b":a=:b",
        &[(Short, 0, 2), (Equals, 2, 3), (Short, 3, 5), (End, 5, 5)],
        None,
    ),
    (b":a#b", &[(Short, 0, 2), (End, 4, 4)], None),
    (
        b"HasKey",
        &[(Word(Keyword::HasKey), 0, 6), (End, 6, 6)],
        None,
    ),
    (b"Haskey", &[], Some(0)),
];

/// Whether the lexer reads these tokens.
fn reads(lexer: &mut Lexer, tokens: &[(TokenKind, usize, usize)]) -> bool {
    for token in tokens {
        let (kind, start, end) = *token;
        if lexer.next() != Ok(Token { kind, start, end }) {
            return false;
        }
    }
    true
}

/// Whether the lexer answers the same again and again.
fn stays_at(lexer: &mut Lexer, last: Result<Token, LexFault>) -> bool {
    for _ in 0..3 {
        if lexer.next() != last {
            return false;
        }
    }
    true
}

/// The end of the bytes, or the fault.
fn last(bytes: &[u8], fault: Option<usize>) -> Result<Token, LexFault> {
    match fault {
        Some(at) => Err(LexFault { at }),
        None => Ok(Token {
            kind: End,
            start: bytes.len(),
            end: bytes.len(),
        }),
    }
}

/// Whether each row's bytes have the row's tokens.
fn are_the_grammars(rows: &[(&[u8], &[(TokenKind, usize, usize)], Option<usize>)]) -> bool {
    for row in rows {
        let (bytes, tokens, fault) = *row;
        let mut lexer = Lexer::new(bytes);
        if !reads(&mut lexer, tokens) || !stays_at(&mut lexer, last(bytes, fault)) {
            return false;
        }
    }
    true
}

#[test]
fn tokens_are_the_grammars(rt: HostRuntime) {
    assert!(rt; are_the_grammars(TABLE));
    assert!(rt; Keyword::DatatypeRestriction.text().len() == 19);
}
