//! Texts, their tokens and their first faults.

use hb_lex::TokenKind::{self, *};
use hb_lex::{LexFail, lex, number_value, place_of, text_value};
use std::alloc::{AllocError, Global};

/// Texts and the kinds of their tokens.
const KINDS: [(&[u8], &[TokenKind]); 10] = [
    (b" \t\r# nothing", &[]),
    (
        b"class setup script type type? def end if then else while do nil true false self new not print str",
        &[
            KwClass, KwSetup, KwScript, KwType, KwTypeAsk, KwDef, KwEnd, KwIf, KwThen, KwElse,
            KwWhile, KwDo, KwNil, KwTrue, KwFalse, KwSelf, KwNew, KwNot, KwPrint, KwStr,
        ],
    ),
    (
        b"Nil Bool Int Str Any Class nils _x x9 A_1",
        &[
            TyNil, TyBool, TyInt, TyStr, TyAny, ClassName, Name, Name, Name, ClassName,
        ],
    ),
    (
        b"( ) , : . = == < + - * ++ -> ; 007 \"\\\"a\"",
        &[
            OpenParen, CloseParen, Comma, Colon, Dot, Assign, Equals, Less, Plus, Minus, Times,
            Concat, Arrow, Separator, Number, Text,
        ],
    ),
    (
        b"===+++-->9x",
        &[Equals, Assign, Concat, Plus, Minus, Arrow, Number, Name],
    ),
    // A line feed separates once, and neither at the start nor behind a separator.
    (
        b"\n\na\n\nb\n;\r\n\nc",
        &[Name, Separator, Name, Separator, Separator, Name],
    ),
    // No line feed separates behind these, but behind a `)`.
    (
        b"(\na,\na:\na.\na=\na==\na<\na+\na-\na*\na++\na->\nnot\nprint\na)\na",
        &[
            OpenParen, Name, Comma, Name, Colon, Name, Dot, Name, Assign, Name, Equals, Name, Less,
            Name, Plus, Name, Minus, Name, Times, Name, Concat, Name, Arrow, KwNot, KwPrint, Name,
            CloseParen, Separator, Name,
        ],
    ),
    (b"a # \" \xff ?\nb#", &[Name, Separator, Name]),
    (b"0009223372036854775807", &[Number]),
    (
        b"a234567890123456789012345678901234567890123456789012345678901234",
        &[Name],
    ),
];

/// Texts and their first faults.
const FAULTS: [(&[u8], LexFail); 15] = [
    (b"a ? \"", LexFail::BadByte(2)),
    (b"typex?", LexFail::BadByte(5)),
    (b"type ?", LexFail::BadByte(5)),
    (b"x \"ab", LexFail::OpenText(2)),
    (b"\"ab\n\"", LexFail::OpenText(0)),
    (b"\"a\\\n\"", LexFail::OpenText(0)),
    (b"\"a\\", LexFail::OpenText(0)),
    (b"\"a\r\n\"", LexFail::BadByte(2)),
    (b"\"a\\q\x01\n", LexFail::BadEscape(2)),
    (b"\"a\x01\\q\"", LexFail::BadByte(2)),
    (b"(9223372036854775808", LexFail::BigNumber(1)),
    (b"99999999999999999999999999", LexFail::BigNumber(0)),
    (
        b" a2345678901234567890123456789012345678901234567890123456789012345",
        LexFail::LongName(1),
    ),
    (
        b"A2345678901234567890123456789012345678901234567890123456789012345",
        LexFail::LongName(0),
    ),
    (b"a ?9999999999999999999", LexFail::BadByte(2)),
];

#[test]
fn tokens_have_kinds(rt: HostRuntime) {
    for (text, want) in KINDS {
        let tokens = lex(rt.alloc(), text).expect(&rt, "tokens");
        assert_eq!(rt; tokens.len(), want.len());
        for (token, kind) in tokens.as_slice().iter().zip(want) {
            assert_eq!(rt; token.kind, *kind);
        }
    }
}

#[test]
fn the_first_fault_is_told(rt: HostRuntime) {
    for (text, want) in FAULTS {
        assert!(rt; lex(rt.alloc(), text).err() == Some(want), "{want:?}");
    }
}

/// A text literal of `n` line feeds.
fn literal(alloc: Global, n: usize) -> Result<Vec<u8>, AllocError> {
    let mut bytes = vec![in alloc; b'"']?;
    for _ in 0..n {
        bytes.extend_from_slice(b"\\n")?;
    }
    bytes.push(b'"')?;
    Ok(bytes)
}

#[test]
fn long_texts_end(rt: HostRuntime) -> Result<(), AllocError> {
    let alloc = rt.alloc();
    for (n, want) in [(1024, None), (1025, Some(LexFail::LongLiteral(0)))] {
        let text = literal(alloc, n)?;
        assert!(rt; text.len() < 10_000);
        assert!(rt; lex(alloc, &text).err() == want);
    }
    let blanks = vec![in alloc; b' '; 1_048_576]?;
    let tokens = lex(alloc, &blanks).expect(&rt, "tokens");
    assert!(rt; tokens.is_empty());
    Ok(())
}

#[test]
fn places_count_from_one(rt: HostRuntime) {
    for (at, place) in [
        (0, (1, 1)),
        (2, (1, 3)),
        (3, (2, 1)),
        (4, (3, 1)),
        (6, (3, 3)),
    ] {
        assert_eq!(rt; place_of(b"ab\n\ncd", at), place);
    }
}

#[test]
#[tactic(auto, unfolding(hb_lex::specs::Tokens::kind_of, hb_lex::specs::Spelling::words, hb_lex::specs::Spelling::marks))]
fn literals_have_values(rt: HostRuntime) -> Result<(), AllocError> {
    assert_eq!(rt; number_value(b"0009223372036854775807"), i64::MAX);
    let value = text_value(rt.alloc(), b"\"a\\n\\t\\\\\\\"\"")?;
    assert_eq!(rt; value.as_slice(), b"a\n\t\\\"".as_slice());
    Ok(())
}
