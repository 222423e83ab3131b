//! Texts with their tokens and faults, by the rules of the language.

use crate::cases::check_cases;
use crate::checks::same_in;
use ifs_lex::{Token, What, tokens};
use ifs_test_images::{definitions_in, repeated};
use std::alloc::{AllocError, Global};
use std::process::Abort;
use std::test::Fail;

/// A token as a test's row writes it: a word as it is, a quoted text in brackets.
fn show(line: &mut String, what: &What) -> Result<(), AllocError> {
    match what {
        What::Word(text) => line.push_str(text.as_str()),
        What::Quoted(text) => write!(line, "[{}]", text.as_str()),
        What::BraceOpen => line.push_str("{"),
        What::BraceClose => line.push_str("}"),
        What::ParenOpen => line.push_str("("),
        What::ParenClose => line.push_str(")"),
        What::Dot => line.push_str("."),
        What::Equals => line.push_str("="),
        What::Bang => line.push_str("!"),
        What::And => line.push_str("&&"),
        What::Or => line.push_str("||"),
        What::End => line.push_str("end"),
    }
}

/// The tokens with a blank after each.
fn shown(alloc: Global, tokens: &[Token]) -> Result<String, AllocError> {
    let mut line = String::new(alloc);
    for token in tokens {
        show(&mut line, &token.what)?;
        line.push_str(" ")?;
    }
    Ok(line)
}

/// The tokens with a blank after each, or the fault.
fn told(alloc: Global, text: &str, defs: &[(&str, &str)]) -> Result<String, Fail> {
    Ok(match tokens(alloc, text, defs) {
        Ok(all) => shown(alloc, all.as_slice())?,
        Err(fault) => format!(in alloc; "{fault}")?,
    })
}

/// The same with line, first byte and end of each token.
fn shown_placed(alloc: Global, tokens: &[Token]) -> Result<String, AllocError> {
    let mut line = String::new(alloc);
    for token in tokens {
        show(&mut line, &token.what)?;
        let span = token.span;
        write!(line, " {}:{}-{}, ", span.line, span.start, span.end)?;
    }
    Ok(line)
}

fn placed(alloc: Global, text: &str, defs: &[(&str, &str)]) -> Result<String, Fail> {
    let all = tokens(alloc, text, defs)?;
    Ok(shown_placed(alloc, all.as_slice())?)
}

/// Texts without tabs and carriage returns.
const TEXTS: &str = r#"
-- empty text
=> end
-- braces
{}
=> { } end
-- parentheses
()
=> ( ) end
-- dot, equals, bang
.=!
=> . = ! end
-- and, or
&&||
=> && || end
-- comment to the newline
a # b
c
=> a c end
-- comment to the end
a # b
=> a end
-- comment without blank
a#b
c
=> a c end
-- continued comment
a # b \
 c
d
=> a d end
-- comment continued twice
a # b\
c\
d
e
=> a e end
-- two backslashes in a comment
a # b\\
c
d
=> a d end
-- backslash inside a comment
a # \ b
c
=> a c end
-- every character
aZ09_/-:+@%*~ b
=> aZ09_/-:+@%*~ b end
-- digit first
0a
=> 0a end
-- underscore first
_a
=> _a end
-- slash first
/bin/sh
=> /bin/sh end
-- dot parts
em0.link.up
=> em0 . link . up end
-- equals parts
1=b
=> 1 = b end
-- quote parts
a"b"c
=> a [b] c end
-- reserved words
state init-state init if run set-state every
=> state init-state init if run set-state every end
-- double quotes
"a b"
=> [a b] end
-- single quotes
'a b'
=> [a b] end
-- empty quotes
"" ''
=> [] [] end
-- other quote
"it's" 'say "x"'
=> [it's] [say "x"] end
-- escaped double
"a\"b"
=> [a"b] end
-- escaped single
'a\'b'
=> [a'b] end
-- other escape
"a\nb\'"
=> [a\nb\'] end
-- newline in quotes
"a
b"
=> [ab] end
-- backslash and newline in quotes
"a\
b"
=> [ab] end
-- dollar and hash in quotes
"$x # y"
=> [$x # y] end
-- two backslashes in quotes
"a\\b"
=> [a\\b] end
-- macro taken out
x = y
=> end
-- macro used
x = 'a b' $x c
=> a b c end
-- word as value
x = em0 $x.link
=> em0 . link end
-- quoted value of a quoted text
x = '"a b"' $x
=> [a b] end
-- empty value of a macro
x = '' a $x b
=> a b end
-- comment in a value
x = 'a # b' $x c
=> a c end
-- inside a block
state a { x = b run $x }
=> state a { run b } end
-- macro redefined
x = a $x x = b $x
=> a b end
-- redefined with itself
x = a x = '$x b' $x
=> a b end
-- as known then
x = a y = '$x $x' x = b $y
=> a a end
-- one use as known then
x = a y = '$x' x = b $y
=> a end
-- reserved name
if = c
=> if = c end
-- no macro name
a-b = c
=> a-b = c end
-- reserved value
x = run
=> x = run end
-- use as value
y = b x = $y
=> x = b end
-- sign as value
x = {
=> x = { end
"#;

/// Texts with characters that a list does not show.
const UNSEEN: [(&str, &str, &str); 4] = [
    ("each blank", " \t\r\na\\\nb", "a b end "),
    ("backslash and carriage return", "a # b\\\r\nc", "a c end "),
    ("escaped space and tab", "\"a\\ b\\\tc\"", "[a b\tc] end "),
    (
        "over ASCII",
        "\"\u{e4}\\ \u{20ac}\"",
        "[\u{e4} \u{20ac}] end ",
    ),
];

#[test]
fn texts_have_their_tokens(rt: HostRuntime) -> Result<(), Fail> {
    check_cases(&rt, TEXTS, |text| told(rt.alloc(), text, &[]))?;
    for (name, text, expected) in UNSEEN {
        check_given(&rt, rt.alloc(), name, text, &[], expected)?;
    }
    Ok(())
}

/// Texts with line, first byte and end of each token.
const SPANS: &str = "\
-- empty
=> end 1:0-0,
-- macro
x = \"em0\" if $x.link.up
=> if 1:10-12, em0 1:13-15, . 1:15-16, link 1:16-20, . 1:20-21, up 1:21-23, end 1:23-23,
-- two tokens at one use
x = 'a b'
 $x
=> a 2:11-13, b 2:11-13, end 2:13-13,
-- end after a newline
a

=> a 1:0-1, end 2:2-2,
-- quoted
'a
b' c
=> [ab] 1:0-5, c 2:6-7, end 2:7-7,
";

#[test]
fn spans(rt: HostRuntime) -> Result<(), Fail> {
    check_cases(&rt, SPANS, |text| placed(rt.alloc(), text, &[]))
}

fn check_given(
    rt: &impl Abort,
    alloc: Global,
    name: &str,
    text: &str,
    defs: &[(&str, &str)],
    expected: &str,
) -> Result<(), Fail> {
    let line = told(alloc, text, defs)?;
    same_in(rt, name, line.as_str(), expected);
    Ok(())
}

/// Definitions, a line each, and after an empty line a text beside which they are given.
const GIVEN: &str = "\
-- wins over the text
x=b

x = a $x
=> b end
-- the first holds
x=b
x=c

$x
=> b end
-- the second is unread
x=b
x=&

$x
=> b end
-- the text's is unread
x=b

x = '&' $x
=> b end
-- uses one before
x=b
y=$x c

$y
=> b c end
-- reserved name
if=b

$if
=> b end
-- equals in a value
x=a = b

a
=> P4 line 0
-- no macro name
1x=a

a
=> P4 line 0
-- no name
=a

a
=> P4 line 0
-- before the text
x=$y

&
=> P4 line 0
";

/// What is said of a text with the definitions before it.
fn told_given(alloc: Global, case: &str) -> Result<String, Fail> {
    let (lines, text) = case.split_once("\n\n").ok_or("a text")?;
    let definitions = definitions_in(alloc, lines)?;
    told(alloc, text, definitions.as_slice())
}

#[test]
fn given_definitions(rt: HostRuntime) -> Result<(), Fail> {
    check_cases(&rt, GIVEN, |case| told_given(rt.alloc(), case))
}

/// The number of tokens of a text, or the fault.
fn counted(alloc: Global, text: &str) -> Result<String, Fail> {
    Ok(match tokens(alloc, text, &[]) {
        Ok(all) => format!(in alloc; "{}", all.len())?,
        Err(fault) => format!(in alloc; "{fault}")?,
    })
}

/// The same for a text with another one at its sign `@`.
fn counted_round(alloc: Global, text: &str, inner: &str) -> Result<String, Fail> {
    let (before, after) = text.split_once('@').ok_or("a place")?;
    let whole = format!(in alloc; "{before}{inner}{after}")?;
    counted(alloc, whole.as_str())
}

/// Texts that have 16,384 words at the sign `@`.
const WORDS: &str = "\
-- 16,384 words
@
=> 16385
-- 16,385 words
@
b
=> P5 line 2
-- a lower number
@
\"b
=> P2 line 2
-- a value of 16,384
x = '@' $x
=> 16385
-- a value of 16,385
x = '@b'
=> P4 line 1
-- at the use
x = '@'
$x
$x
=> P5 line 3
-- an empty macro more
e = '' @ $e
=> 16385
";

#[test]
fn tokens_in_all(rt: HostRuntime) -> Result<(), Fail> {
    let full = repeated(rt.alloc(), "a ", 16_384)?;
    check_cases(
        &rt,
        WORDS,
        |text| counted_round(rt.alloc(), text, full.as_str()),
    )
}

/// `count` definitions, a line each.
fn names(alloc: Global, count: u32) -> Result<String, AllocError> {
    let mut text = String::new(alloc);
    for n in 0..count {
        writeln!(text, "n{n} = a")?;
    }
    Ok(text)
}

/// Texts that have 256 definitions at the sign `@`.
const NAMES: &str = "\
-- 256 names
@
=> 1
-- a name again
@n7 = b $n7
=> 2
-- 257 names
@m = a
=> P5 line 257
-- a bad value first
@m = '&'
=> P4 line 257
";

#[test]
fn names_in_all(rt: HostRuntime) -> Result<(), Fail> {
    let full = names(rt.alloc(), 256)?;
    check_cases(
        &rt,
        NAMES,
        |text| counted_round(rt.alloc(), text, full.as_str()),
    )
}

/// A name that is given beside the text counts as one of them.
#[test]
fn a_given_name_more(rt: HostRuntime) -> Result<(), Fail> {
    let text = names(rt.alloc(), 256)?;
    check_given(
        &rt,
        rt.alloc(),
        "257 names",
        text.as_str(),
        &[("m", "b")],
        "P5 line 256",
    )
}

/// A definition for each line of a text. The line is its name.
fn each_given(alloc: Global, names: &str) -> Result<Vec<(&str, &str)>, AllocError> {
    let mut given = Vec::new(alloc);
    for name in names.lines() {
        given.push((name, "a"))?;
    }
    Ok(given)
}

/// There may be as many definitions beside the text as there may be names.
#[test]
fn as_many_names_are_given(rt: HostRuntime) -> Result<(), Fail> {
    let mut names = String::new(rt.alloc());
    for n in 0..256 {
        writeln!(names, "n{n}")?;
    }
    let given = each_given(rt.alloc(), names.as_str())?;
    check_given(
        &rt,
        rt.alloc(),
        "256 given",
        "$n255",
        given.as_slice(),
        "a end ",
    )
}

#[test]
fn bytes_in_all(rt: HostRuntime) -> Result<(), Fail> {
    let full = repeated(rt.alloc(), "\n", 1_048_576)?;
    let (alloc, full) = (rt.alloc(), full.as_str());
    let most = counted(alloc, full)?;
    same_in(&rt, "1,048,576 bytes", most.as_str(), "1");
    let more = counted_round(alloc, "&@", full)?;
    same_in(&rt, "1,048,577 bytes", more.as_str(), "P5 line 1");
    Ok(())
}

/// The definitions beside the text are checked first, whatever the size of either.
#[test]
fn bytes_of_what_is_given(rt: HostRuntime) -> Result<(), Fail> {
    let over = repeated(rt.alloc(), "\n", 1_048_577)?;
    let (alloc, over) = (rt.alloc(), over.as_str());
    check_given(&rt, alloc, "a value", "a", &[("x", over)], "P4 line 0")?;
    check_given(&rt, alloc, "a text", over, &[("x", "&")], "P4 line 0")
}

/// A definition beside the text may have as many bytes as a text.
#[test]
fn bytes_of_a_given_value(rt: HostRuntime) -> Result<(), Fail> {
    let full = repeated(rt.alloc(), "\n", 1_048_576)?;
    let (alloc, full) = (rt.alloc(), full.as_str());
    check_given(&rt, alloc, "a full value", "a", &[("x", full)], "a end ")
}

/// A value of many tokens occurs in another very many times, and is copied nowhere.
#[test]
fn values_are_not_copied(rt: HostRuntime) -> Result<(), Fail> {
    let value = repeated(rt.alloc(), "a ", 16_384)?;
    let lines = repeated(rt.alloc(), "x = '$y'\n", 100_000)?;
    let text = format!(in rt.alloc(); "y = '{}'\n{}$x", value.as_str(), lines.as_str())?;
    let found = counted(rt.alloc(), text.as_str())?;
    same_in(&rt, "aliases", found.as_str(), "16385");
    Ok(())
}

/// A value is longer by one token each time.
#[test]
fn values_that_grow(rt: HostRuntime) -> Result<(), Fail> {
    let longer = repeated(rt.alloc(), "x = '$x a'\n", 16_383)?;
    let found = counted_round(rt.alloc(), "x = a\n@$x", longer.as_str())?;
    same_in(&rt, "a value that grows", found.as_str(), "16385");
    Ok(())
}
