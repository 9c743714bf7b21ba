//! Texts with their tokens.

use pst_lex::{LexFault, Lexer, Token, TokenKind, find_fault};
use std::alloc::{AllocError, Global};
use std::test::Fail;

/// A text that is read here has fewer bytes.
const SMALL: usize = 1_000;

/// The line of a token, its first byte and the one behind its last, and what it is: a name by its bytes, a number, or the
/// name of a keyword or symbol.
fn shown(alloc: Global, token: &Token<'_>) -> Result<String, AllocError> {
    let line = token.line;
    let from = token.span.from;
    let to = token.span.to;
    match &token.kind {
        TokenKind::Name(name) => {
            let text = std::str::from_utf8(name.bytes()).unwrap_or("?");
            format!(in alloc; "{line}:{from}-{to} {text}; ")
        }
        TokenKind::Number(value) => format!(in alloc; "{line}:{from}-{to} {value}; "),
        TokenKind::Mark(mark) => format!(in alloc; "{line}:{from}-{to} {mark:?}; "),
    }
}

/// The tokens of a small text, and the line of its end.
fn all_shown(alloc: Global, text: &[u8]) -> Result<String, Fail> {
    let mut all = String::new(alloc);
    if text.len() >= SMALL {
        return Ok(all);
    }
    let mut lexer = Lexer::new(text);
    // A token has a byte at least, so there are fewer than that.
    for _ in 0..SMALL {
        match lexer.next_token()? {
            None => break,
            Some(token) => all.push_str(shown(alloc, &token)?.as_str())?,
        }
    }
    all.push_str(lexer.line().to_string(alloc)?.as_str())?;
    Ok(all)
}

#[test]
fn symbols_are_as_long_as_they_can_be(rt: HostRuntime) -> Result<(), Fail> {
    let alloc = rt.alloc();
    assert_eq!(rt;
        all_shown(alloc, b"===")?.as_str(),
        "1:0-2 Equal; 1:2-3 Assign; 1"
    );
    assert_eq!(rt;
        all_shown(alloc, b"<==")?.as_str(),
        "1:0-2 LessEqual; 1:2-3 Assign; 1"
    );
    assert_eq!(rt;
        all_shown(alloc, b"=<")?.as_str(),
        "1:0-1 Assign; 1:1-2 Less; 1"
    );
    assert_eq!(rt;
        all_shown(alloc, b"!=>=>%")?.as_str(),
        "1:0-2 NotEqual; 1:2-4 GreaterEqual; 1:4-5 Greater; 1:5-6 Percent; 1"
    );
    Ok(())
}

#[test]
fn words_are_as_long_as_they_can_be(rt: HostRuntime) -> Result<(), Fail> {
    let alloc = rt.alloc();
    assert_eq!(rt;
        all_shown(alloc, b"5.x")?.as_str(),
        "1:0-1 5; 1:1-2 Dot; 1:2-3 x; 1"
    );
    assert_eq!(rt;
        all_shown(alloc, b"9223372036854775807 0")?.as_str(),
        "1:0-19 9223372036854775807; 1:20-21 0; 1"
    );
    assert_eq!(rt;
        all_shown(alloc, b"int ints _ Int")?.as_str(),
        "1:0-3 Int; 1:4-8 ints; 1:9-10 _; 1:11-14 Int; 1"
    );
    assert_eq!(rt;
        all_shown(alloc, b"a1234567890123456789012345678901:")?.as_str(),
        "1:0-32 a1234567890123456789012345678901; 1:32-33 Colon; 1"
    );
    Ok(())
}

#[test]
fn blanks_and_comments_are_no_tokens(rt: HostRuntime) -> Result<(), Fail> {
    let alloc = rt.alloc();
    assert_eq!(rt; all_shown(alloc, b"")?.as_str(), "1");
    assert_eq!(rt; all_shown(alloc, b" \t\r\n")?.as_str(), "2");
    assert_eq!(rt; all_shown(alloc, b"# a comment ! & ~")?.as_str(), "1");
    assert_eq!(rt;
        all_shown(alloc, b"a#b\nc")?.as_str(),
        "1:0-1 a; 2:4-5 c; 2"
    );
    Ok(())
}

#[test]
fn tokens_stand_in_their_places(rt: HostRuntime) -> Result<(), Fail> {
    let alloc = rt.alloc();
    assert_eq!(rt;
        all_shown(alloc, b"proc p() {\n")?.as_str(),
        "1:0-4 Proc; 1:5-6 p; 1:6-7 OpenParen; 1:7-8 CloseParen; 1:9-10 OpenBrace; 2"
    );
    assert_eq!(rt;
        all_shown(alloc, b"}),;+-*/")?.as_str(),
        "1:0-1 CloseBrace; 1:1-2 CloseParen; 1:2-3 Comma; 1:3-4 Semicolon; 1:4-5 Plus; 1:5-6 Minus; 1:6-7 Star; 1:7-8 Slash; 1"
    );
    Ok(())
}

#[test]
fn fault_behind_tokens_is_found(rt: HostRuntime) {
    assert_eq!(rt; find_fault(b"a = 1; # of four"), Ok(()));
    assert_eq!(rt; find_fault(b"a =\n007"), Err(LexFault::Number { line: 2 }));
    assert_eq!(rt; find_fault(b"# \x07"), Err(LexFault::Byte { line: 1 }));
}

#[test]
fn lexer_stays_before_a_fault_and_at_the_end(rt: HostRuntime) -> Result<(), Fail> {
    let mut lexer = Lexer::new(b"a\n&");
    assert!(rt; lexer.next_token()?.is_some());
    assert!(rt; lexer.next_token().is_err());
    assert_eq!(rt; lexer.line(), 1);
    assert!(rt; !lexer.is_at_end());
    let mut lexer = Lexer::new(b"a # b\n");
    assert!(rt; lexer.next_token()?.is_some());
    assert!(rt; lexer.next_token()?.is_none());
    assert!(rt; lexer.next_token()?.is_none());
    assert_eq!(rt; lexer.line(), 2);
    assert!(rt; lexer.is_at_end());
    Ok(())
}

#[test]
fn token_takes_40_bytes(rt: HostRuntime) {
    assert_eq!(rt; size_of::<Token>(), 40);
}
