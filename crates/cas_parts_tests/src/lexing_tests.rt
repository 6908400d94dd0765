//! Rows of texts, each with its tokens or its first fault.

use cas_base::Place;
use cas_lex::{LexFault, Sign, TokenKind, Word, end_of, lex};
use std::alloc::{AllocError, Global};
use std::fmt::Write;
use std::process::Abort;
use std::test::Fail;

// The tokens of a text, each with its place, or the fault.
fn shown(alloc: Global, text: &[u8]) -> Result<String, AllocError> {
    let mut shown = String::new(alloc);
    if text.len() > 1000 {
        shown.push_str("too long a row")?;
        return Ok(shown);
    }
    match lex(alloc, text) {
        Ok(tokens) => {
            for token in &tokens {
                let Place { line, col } = token.place;
                match &token.kind {
                    TokenKind::Name(name) => write!(shown, "{line}:{col} name {} ", name.as_str())?,
                    TokenKind::Literal(value, kind) => write!(
                        shown,
                        "{line}:{col} {value} {kind:?} "
                    )?,
                    TokenKind::Word(word) => write!(shown, "{line}:{col} {word:?} ")?,
                    TokenKind::Sign(sign) => write!(shown, "{line}:{col} {sign:?} ")?,
                }
            }
        }
        Err(LexFault::At { code, place }) => {
            let Place { line, col } = place;
            write!(shown, "{line}:{col} {code:?} ")?;
        }
        Err(LexFault::Memory) => shown.push_str("memory ")?,
    }
    Ok(shown)
}

fn assert_row(rt: &impl Abort, alloc: Global, text: &[u8], wanted: &str) -> Result<(), AllocError> {
    let found = shown(alloc, text)?;
    assert_eq!(rt; found.as_str(), wanted);
    Ok(())
}

#[test]
fn each_fault_at_its_place(rt: HostRuntime) -> Result<(), Fail> {
    let rows = [
        ("void w(int me) { int x; x = 010; }", "1:29 R7 "),
        ("void w(int me) { print(4294967296); }", "1:24 R3 "),
        ("void w(int me) { /* x", "1:18 R2 "),
        ("/*/", "1:1 R2 "),
        ("4294967295a", "1:1 R7 "),
        ("4294967296a", "1:1 R3 "),
        ("0xfFfFfFfF0", "1:1 R3 "),
        ("0x", "1:1 R7 "),
        ("0xg", "1:1 R7 "),
        ("0x1g", "1:1 R7 "),
        ("12uu", "1:1 R7 "),
        ("1_", "1:1 R7 "),
        ("1.5", "1:2 R7 "),
        ("x->y", "1:2 R7 "),
        ("x.y", "1:2 R7 "),
        ("'a'", "1:1 R7 "),
        ("\"\"", "1:1 R7 "),
        ("#if", "1:1 R7 "),
        ("a goto b", "1:3 R7 "),
        ("trylock", "1:1 R7 "),
        ("a\n @", "2:2 R1 "),
        ("$", "1:1 R1 "),
        ("`", "1:1 R1 "),
        ("\\", "1:1 R1 "),
        ("\u{b}", "1:1 R1 "),
        ("\u{7f}", "1:1 R1 "),
        ("/* é */ é", "1:10 R1 "),
        ("//é\n@", "2:1 R1 "),
        ("\u{feff}", "1:1 R1 "),
        ("010 @", "1:1 R7 "),
    ];
    for (text, wanted) in rows {
        assert_row(&rt, rt.alloc(), text.as_bytes(), wanted)?;
    }
    Ok(())
}

#[test]
fn bytes_that_are_no_text_come_first(rt: HostRuntime) -> Result<(), Fail> {
    assert_row(&rt, rt.alloc(), b"01 \xff", "1:4 R1 ")?;
    assert_row(&rt, rt.alloc(), b"/* \xff */", "1:4 R1 ")?;
    assert_row(&rt, rt.alloc(), b"a\n\xc3", "2:1 R1 ")?;
    Ok(())
}

#[test]
fn each_token_is_the_longest(rt: HostRuntime) -> Result<(), Fail> {
    let rows = [
        ("", ""),
        (
            "<<= <<<= < <<<",
            "1:1 ShiftLeftEqual 1:5 ShiftLeft 1:7 LessEqual 1:10 Less 1:12 ShiftLeft 1:14 Less ",
        ),
        (
            ">>=>>>=>",
            "1:1 ShiftRightEqual 1:4 ShiftRight 1:6 GreaterEqual 1:8 Greater ",
        ),
        ("+++=+", "1:1 PlusPlus 1:3 PlusEqual 1:5 Plus "),
        ("---=-", "1:1 MinusMinus 1:3 MinusEqual 1:5 Minus "),
        ("-->", "1:1 MinusMinus 1:3 Greater "),
        ("&&&=&", "1:1 AndAnd 1:3 AndEqual 1:5 And "),
        ("|||=|", "1:1 OrOr 1:3 OrEqual 1:5 Or "),
        ("**=", "1:1 Star 1:2 StarEqual "),
        ("/ /=", "1:1 Slash 1:3 SlashEqual "),
        ("%%=", "1:1 Percent 1:2 PercentEqual "),
        ("^^=", "1:1 Caret 1:2 CaretEqual "),
        ("!!=", "1:1 Not 1:2 NotEqual "),
        ("===", "1:1 EqualEqual 1:3 Equal "),
        (
            "~?:;,",
            "1:1 Tilde 1:2 Question 1:3 Colon 1:4 Semicolon 1:5 Comma ",
        ),
        (
            "()[]{}",
            "1:1 OpenParen 1:2 CloseParen 1:3 OpenBracket 1:4 CloseBracket 1:5 OpenBrace 1:6 CloseBrace ",
        ),
        ("12u3", "1:1 12 U32 1:4 3 I32 "),
        (
            "0 0U 0x0 0Xfeu",
            "1:1 0 I32 1:3 0 U32 1:6 0 I32 1:10 254 U32 ",
        ),
        (
            "2147483647 2147483648",
            "1:1 2147483647 I32 1:12 2147483648 U32 ",
        ),
        (
            "0x7fffffff 0x80000000",
            "1:1 2147483647 I32 1:12 2147483648 U32 ",
        ),
        ("4294967295", "1:1 4294967295 U32 "),
        (
            "int intx _9 If",
            "1:1 Int 1:5 name intx 1:10 name _9 1:13 name If ",
        ),
        ("a/*x*/b//c\nd", "1:1 name a 1:7 name b 2:1 name d "),
        ("/**/x/*//***/y", "1:5 name x 1:14 name y "),
        ("/*\n*/x// /*", "2:3 name x "),
        ("a\r\n\tb\rc", "1:1 name a 2:2 name b 2:4 name c "),
    ];
    for (text, wanted) in rows {
        assert_row(&rt, rt.alloc(), text.as_bytes(), wanted)?;
    }
    Ok(())
}

#[test]
fn names_have_at_most_63_bytes(rt: HostRuntime) -> Result<(), Fail> {
    let longest = "wwwwwwwwwwwwwwwwwwwwwwwwwwwwwwwwwwwwwwwwwwwwwwwwwwwwwwwwwwwwwww";
    let wanted = format!(in rt.alloc(); "1:1 name {longest} ")?;
    assert_row(&rt, rt.alloc(), longest.as_bytes(), wanted.as_str())?;
    let text = format!(in rt.alloc(); "void {longest}w(int me);")?;
    assert_row(&rt, rt.alloc(), text.as_bytes(), "1:6 R4 ")?;
    Ok(())
}

#[test]
fn always_want_of_memory(rt: HostRuntime) -> Result<(), Fail> {
    assert_row(
        &rt,
        rt.alloc(),
        b"x = y;",
        "1:1 name x 1:3 Equal 1:5 name y 1:6 Semicolon ",
    )?;
    Ok(())
}

#[test]
fn words_and_signs_have_their_texts(rt: HostRuntime) {
    assert_eq!(rt; Word::Continue.as_str(), "continue");
    assert_eq!(rt; Sign::ShiftRightEqual.as_str(), ">>=");
    assert_eq!(rt; end_of(b"a\nbc"), Place { line: 2, col: 3 });
}
