//! How reports are shown to a reader and as JSON.

use crate::cases::check_cases;
use crate::checks::{same, same_in};
use ifs_report::{Label, Part, Place, Position, Report, Severity, Source, json, position, shown};
use std::alloc::{AllocError, Global};
use std::process::Abort;
use std::test::Fail;

/// A text with a macro on line 10 and its use on line 22.
const POLICY: &[u8] =
    b"\n\n\n\n\n\n\n\n\nmaint = '\"test -e /run/maintenance\" every 10s'\n\n\n\n\n\n\n\n\n\n\n\n    if $maint\n";

/// The definitions of the tests.
const DEFINITIONS: &[(&str, &str)] = &[("lan", "em0"), ("maint", "\"x\" every 10s\nend")];

fn text_at(start: usize, end: usize) -> Place {
    Place::Text(Part { start, end })
}

/// A report that says no more than a place and a message.
fn plain(alloc: Global, place: Place, message: &str) -> Result<Report, AllocError> {
    let message = String::from_str(alloc, message)?;
    Ok(Report::new(alloc, Severity::Error, "P6", place, message))
}

/// A report that says all that it can.
fn full(alloc: Global) -> Result<Report, AllocError> {
    let mut report = plain(alloc, text_at(51, 54), "`10s` cannot stand here")?;
    report.expected = vec![in alloc; "a number of seconds, from 1 to 604800"]?;
    report.labels = vec![in alloc;
        Label {
            place: text_at(74, 80),
            words: "used here"
        },
    ]?;
    report.hint = String::from_str(alloc, "whole seconds, without a unit: `10`")?;
    Ok(report)
}

fn named<'a>(name: &'a str, text: &'a [u8]) -> Source<'a> {
    Source {
        name,
        text,
        lines_before: 0,
        definitions: DEFINITIONS,
    }
}

fn check_shown(
    rt: &impl Abort,
    alloc: Global,
    report: &Report,
    source: Source<'_>,
    wanted: &str,
) -> Result<(), Fail> {
    let text = shown(alloc, report, source, false)?;
    same(rt, text.as_str(), wanted);
    Ok(())
}

/// Asserts what is shown of a report, and its JSON.
fn check_both(
    rt: &impl Abort,
    alloc: Global,
    report: &Report,
    source: Source<'_>,
    (wanted, object): (&str, &str),
) -> Result<(), Fail> {
    check_shown(rt, alloc, report, source, wanted)?;
    let text = json(alloc, report, source)?;
    same(rt, text.as_str(), object);
    Ok(())
}

/// The same for a report that says no more than a place.
fn check_plain(
    rt: &impl Abort,
    alloc: Global,
    place: Place,
    source: Source<'_>,
    wanted: (&str, &str),
) -> Result<(), Fail> {
    let report = plain(alloc, place, "no")?;
    check_both(rt, alloc, &report, source, wanted)
}

/// Asserts positions in a text: an offset, the line and the column in each row.
fn check_positions(
    rt: &impl Abort,
    alloc: Global,
    text: &[u8],
    rows: &str,
) -> Result<(), AllocError> {
    for row in rows.lines() {
        let (offset, _position) = row.split_once(' ').unwrap_or((row, ""));
        let Position { line, column } = position(text, number_of(rt, offset));
        let found = format!(in alloc; "{offset} {line} {column}")?;
        same(rt, found.as_str(), row);
    }
    Ok(())
}

#[test]
fn positions(rt: HostRuntime) -> Result<(), Fail> {
    let text = "a\nb\u{e9}\u{5b57}c\n\nd".as_bytes();
    let rows = "0 1 1\n1 1 2\n2 2 1\n5 2 3\n8 2 4\n9 2 5\n10 3 1\n12 4 2\n99 4 2\n";
    check_positions(&rt, rt.alloc(), text, rows)?;
    let bytes = b"\x7f\x80\xbf\xc0";
    check_positions(&rt, rt.alloc(), bytes, "1 1 2\n2 1 2\n3 1 2\n4 1 3\n")?;
    check_positions(&rt, rt.alloc(), b"\t\n\x0b", "1 1 2\n2 2 1\n3 2 2\n")?;
    check_positions(&rt, rt.alloc(), b"", "0 1 1\n")?;
    Ok(())
}

#[test]
fn whole(rt: HostRuntime) -> Result<(), Fail> {
    let report = full(rt.alloc())?;
    let source = named("policy", POLICY);
    check_both(
        &rt,
        rt.alloc(),
        &report,
        source,
        (
            "policy:10:43: error: `10s` cannot stand here; expected a number of seconds, from 1 to 604800
   10 | maint = '\"test -e /run/maintenance\" every 10s'
      |                                           ^^^
   22 |     if $maint
      |        ^^^^^^ used here
hint: whole seconds, without a unit: `10`
",
            "{\"file\":\"policy\",\"severity\":\"error\",\"code\":\"P6\",\"message\":\"`10s` cannot stand here\",\
        \"line\":10,\"column\":43,\"end_line\":10,\"end_column\":46,\
        \"expected\":[\"a number of seconds, from 1 to 604800\"],\
        \"related\":[{\"message\":\"used here\",\"line\":22,\"column\":8,\"end_line\":22,\"end_column\":14}],\
        \"hint\":\"whole seconds, without a unit: `10`\"}\n",
        ),
    )
}

/// Excerpts of texts, with carets under a part. Each text has the part before it, and each excerpt the line `end` behind it.
const EXCERPTS: &str = "\
-- tabs
4 5
\tif\tx y
=> f:1:5: error: no
    1 | \tif\tx y
      | \t  \t^
end
-- a tab in the part
0 3
a\tb c
=> f:1:1: error: no
    1 | a\tb c
      | ^\t^
end
-- no more than a tab
1 2
a\tb
=> f:1:2: error: no
    1 | a\tb
      |  ^
end
-- wide characters
6 12
\u{5b57}\u{e9} \u{5b57}\u{5b57} x
=> f:1:4: error: no
    1 | \u{5b57}\u{e9} \u{5b57}\u{5b57} x
      |     ^^^^
end
-- a mark above a character
3 4
e\u{301}x y
=> f:1:3: error: no
    1 | e\u{301}x y
      |  ^
end
-- the end, without a newline
9 9
state a {
=> f:1:10: error: no
    1 | state a {
      |          ^
end
-- the end, after a newline
10 10
state a {

=> f:2:1: error: no
    2 |
      | ^
end
-- an empty text
0 0

=> f:1:1: error: no
    1 |
      | ^
end
-- several lines
2 9
x 'ab
cd' y
=> f:1:3: error: no
    1 | x 'ab
      |   ^^^
end
-- a newline
2 3
ab
cd
=> f:1:3: error: no
    1 | ab
      |   ^
end
-- carriage returns before newlines
4 8
ab\r
cd\r

=> f:2:1: error: no
    2 | cd
      | ^^
end
-- a newline after a carriage return
3 4
ab\r
cd\r

=> f:1:4: error: no
    1 | ab
      |   ^
end
-- a carriage return elsewhere
2 3
a\rb\r
=> f:1:3: error: no
    1 | a\\x0db\\x0d
      |      ^
end
-- a part in the middle of a character
1 3
\u{5b57}x
=> f:1:2: error: no
    1 | \\xe5\\xad\\x97x
      |     ^^^^^^^^
end
-- a part outside of the text
40 50
ab
cd
=> f:2:3: error: no
    2 | cd
      |   ^
end
-- a part that ends outside
3 50
ab
cd
=> f:2:1: error: no
    2 | cd
      | ^^
end
-- a part that ends before it begins
1 0
ab
cd
=> f:1:2: error: no
    1 | ab
      |  ^
end
";

/// The excerpt of a case.
fn excerpt_of(alloc: Global, case: &str) -> Result<String, Fail> {
    let (numbers, text) = case.split_once('\n').ok_or("a text")?;
    let (start, end) = numbers.split_once(' ').ok_or("a part")?;
    let start = start.parse().ok().ok_or("a start")?;
    let end = end.parse().ok().ok_or("an end")?;
    let shown = shown_part(alloc, text.as_bytes(), start, end)?;
    Ok(format!(in alloc; "{shown}end")?)
}

/// What a report on a part of a text shows.
fn shown_part(alloc: Global, text: &[u8], start: usize, end: usize) -> Result<String, Fail> {
    let report = plain(alloc, text_at(start, end), "no")?;
    Ok(shown(alloc, &report, named("f", text), false)?)
}

#[test]
fn excerpts(rt: HostRuntime) -> Result<(), Fail> {
    check_cases(&rt, EXCERPTS, |case| excerpt_of(rt.alloc(), case))?;
    let unreadable = shown_part(rt.alloc(), b"\x1b\xff\xe5\xadz\xc2\x85 y", 1, 7)?;
    same(
        &rt,
        unreadable.as_str(),
        "f:1:2: error: no\n    1 | \\x1b\\xff\\xe5\\xadz\\xc2\\x85 y\n      |     ^^^^^^^^^^^^^^^^^^^^^\n",
    );
    Ok(())
}

/// Lines of `a` and `b`: the number of `a`, of `b`, and of `a` after them. Carets are under `b`. Then what is shown of them, with
/// dots where it is cut.
const LONG_LINES: &str = "\
100 3 57 => 100 3 57
100 3 58 => ..99 3 58
0 1 200 => 0 1 159..
500 2 500 => ..79 2 79..
500 0 0 => ..160 0 0
20 300 20 => ..0 160 0..
5000 2 5000 => ..79 2 79..
2000 0 1 => ..159 0 1
2000 2000 0 => ..0 160 0..
50 300 0 => ..0 160 0..
";

/// Three numbers, with or without dots round them.
fn numbers_of(rt: &impl Abort, words: &str) -> (usize, usize, usize) {
    let (first, rest) = words.split_once(' ').unwrap_or((words, ""));
    let (second, third) = rest.split_once(' ').unwrap_or((rest, ""));
    (
        number_of(rt, first),
        number_of(rt, second),
        number_of(rt, third),
    )
}

fn number_of(rt: &impl Abort, word: &str) -> usize {
    let digits = word.trim_start_matches('.').trim_end_matches('.');
    digits.parse().expect(rt, "no number")
}

/// A line of `a` and `b`.
fn line_of(
    alloc: Global,
    (before, inside, after): (usize, usize, usize),
) -> Result<String, AllocError> {
    let mut line = repeated(alloc, "a", before)?;
    line.push_str(repeated(alloc, "b", inside)?.as_str())?;
    line.push_str(repeated(alloc, "a", after)?.as_str())?;
    Ok(line)
}

fn repeated(alloc: Global, piece: &str, count: usize) -> Result<String, AllocError> {
    let mut text = String::new(alloc);
    for _ in 0..count {
        text.push_str(piece)?;
    }
    Ok(text)
}

fn dots(is_cut: bool) -> &'static str {
    if is_cut { ".." } else { "" }
}

#[test]
fn long_lines(rt: HostRuntime) -> Result<(), Fail> {
    for row in LONG_LINES.lines() {
        let (numbers, wanted) = row.split_once(" => ").ok_or("a row")?;
        let found = shown_line(rt.alloc(), numbers_of(&rt, numbers))?;
        let wanted = wanted_line(&rt, rt.alloc(), numbers, wanted)?;
        same_in(&rt, row, found.as_str(), wanted.as_str());
    }
    Ok(())
}

/// What is shown of a line of `a` and `b`.
fn shown_line(alloc: Global, numbers: (usize, usize, usize)) -> Result<String, Fail> {
    let text = line_of(alloc, numbers)?;
    let end = numbers.0.saturating_add(numbers.1);
    shown_part(alloc, text.as_bytes(), numbers.0, end)
}

/// What a row says of that.
fn wanted_line(
    rt: &impl Abort,
    alloc: Global,
    numbers: &str,
    wanted: &str,
) -> Result<String, AllocError> {
    let column = numbers_of(rt, numbers).0.saturating_add(1);
    let (before, inside, after) = numbers_of(rt, wanted);
    let (start, end) = (dots(wanted.starts_with("..")), dots(wanted.ends_with("..")));
    let line = line_of(alloc, (before, inside, after))?;
    let indent = repeated(alloc, " ", start.len().saturating_add(before))?;
    let carets = repeated(alloc, "^", inside.max(1))?;
    format!(in alloc;
        "f:1:{column}: error: no\n    1 | {start}{line}{end}\n      | {indent}{carets}\n"
    )
}

/// A long line of characters of four bytes and two columns.
#[test]
fn long_wide_line(rt: HostRuntime) -> Result<(), Fail> {
    let wide = repeated(rt.alloc(), "\u{1f980}", 1000)?;
    let text = format!(in rt.alloc(); "{wide}x{wide}")?;
    let report = plain(rt.alloc(), text_at(4000, 4001), "no")?;
    let before = repeated(rt.alloc(), "\u{1f980}", 39)?;
    let indent = repeated(rt.alloc(), " ", 80)?;
    let wanted = format!(in rt.alloc();
        "f:1:1001: error: no\n    1 | ..{before}x{before}\u{1f980}..\n      | {indent}^\n"
    )?;
    check_shown(
        &rt,
        rt.alloc(),
        &report,
        named("f", text.as_bytes()),
        wanted.as_str(),
    )
}

/// A line with a number of six digits sets the width of the gutter.
#[test]
fn gutters(rt: HostRuntime) -> Result<(), Fail> {
    let mut text = repeated(rt.alloc(), "\n", 99_999)?;
    text.push_str("ab")?;
    let mut report = plain(rt.alloc(), text_at(0, 0), "no")?;
    report.labels = vec![in rt.alloc();
        Label {
            place: text_at(99_999, 100_001),
            words: "here"
        },
        Label {
            place: Place::File,
            words: "in the whole file"
        },
        Label {
            place: Place::Definition(0, Part { start: 1, end: 3 }),
            words: "as defined"
        },
    ]?;
    check_both(
        &rt,
        rt.alloc(),
        &report,
        named("f", text.as_bytes()),
        (
            "f:1:1: error: no
     1 |
       | ^
100000 | ab
       | ^^ here
       = in the whole file
    -D | lan=em0
       |      ^^ as defined
",
            "{\"file\":\"f\",\"severity\":\"error\",\"code\":\"P6\",\"message\":\"no\",\
        \"line\":1,\"column\":1,\"end_line\":1,\"end_column\":1,\"expected\":[],\"related\":[\
        {\"message\":\"here\",\"line\":100000,\"column\":1,\"end_line\":100000,\"end_column\":3},\
        {\"message\":\"in the whole file\"},\
        {\"message\":\"as defined\",\"line\":1,\"column\":6,\"end_line\":1,\"end_column\":8,\"definition\":\"lan\"}]}\n",
        ),
    )
}

/// Names, messages and words with what a terminal may act on, and with what JSON escapes.
#[test]
fn escapes(rt: HostRuntime) -> Result<(), Fail> {
    let mut report = plain(rt.alloc(), Place::File, "a \"\\\u{1b}[2J\n\t\u{202e}\u{e9}")?;
    report.severity = Severity::Note;
    report.code = "";
    report.rule = "a rule";
    let source = named("\u{1b}]0;x\u{7}\nf\"", b"");
    check_both(
        &rt,
        rt.alloc(),
        &report,
        source,
        (
            "\\x1b]0;x\\x07\\x0af\": note: a \"\\\\x1b[2J\\x0a\\x09\\xe2\\x80\\xae\u{e9}\nrule: a rule\n",
            "{\"file\":\"\\u001b]0;x\\u0007\\nf\\\"\",\"severity\":\"note\",\"code\":\"\",\
        \"message\":\"a \\\"\\\\\\u001b[2J\\n\\t\\u202e\u{e9}\",\"expected\":[],\"related\":[],\"rule\":\"a rule\"}\n",
        ),
    )
}

#[test]
fn standard_input(rt: HostRuntime) -> Result<(), Fail> {
    check_plain(
        &rt,
        rt.alloc(),
        text_at(1, 2),
        named("-", b"ab"),
        (
            "standard input:1:2: error: no\n    1 | ab\n      |  ^\n",
            "{\"file\":\"-\",\"severity\":\"error\",\"code\":\"P6\",\"message\":\"no\",\
        \"line\":1,\"column\":2,\"end_line\":1,\"end_column\":3,\"expected\":[],\"related\":[]}\n",
        ),
    )
}

/// A part of a value on its first line, one on its second line, and a definition that is not there.
#[test]
fn definitions(rt: HostRuntime) -> Result<(), Fail> {
    let value = Place::Definition(1, Part { start: 10, end: 13 });
    check_plain(
        &rt,
        rt.alloc(),
        value,
        named("f", b""),
        (
            "-D:17: error: no\n   -D | maint=\"x\" every 10s\n      |                 ^^^\n",
            "{\"file\":\"f\",\"severity\":\"error\",\"code\":\"P6\",\"message\":\"no\",\
        \"line\":1,\"column\":17,\"end_line\":1,\"end_column\":20,\"definition\":\"maint\",\"expected\":[],\"related\":[]}\n",
        ),
    )?;
    let second = Place::Definition(1, Part { start: 14, end: 99 });
    let lines = "-D:1: error: no\n   -D | end\n      | ^^^\n";
    check_shown_plain(&rt, rt.alloc(), second, lines)?;
    let missing = Place::Definition(2, Part { start: 0, end: 1 });
    check_shown_plain(&rt, rt.alloc(), missing, "-D: error: no\n")
}

/// Asserts what is shown of a report that says no more than a place, of an empty text.
fn check_shown_plain(
    rt: &impl Abort,
    alloc: Global,
    place: Place,
    wanted: &str,
) -> Result<(), Fail> {
    let report = plain(alloc, place, "no")?;
    check_shown(rt, alloc, &report, named("f", b""), wanted)
}

/// A report that expects these words, with commas between them.
fn expecting(alloc: Global, words: &'static str) -> Result<Report, AllocError> {
    let mut report = plain(alloc, Place::File, "no")?;
    for word in words.split(", ") {
        report.expected.push(word)?;
    }
    Ok(report)
}

#[test]
fn expectations(rt: HostRuntime) -> Result<(), Fail> {
    let two = expecting(rt.alloc(), "a, `b`")?;
    let line = "f: error: no; expected a or `b`\n";
    check_shown(&rt, rt.alloc(), &two, named("f", b""), line)?;
    let four = expecting(rt.alloc(), "a, `b`, c, d")?;
    check_both(
        &rt,
        rt.alloc(),
        &four,
        named("f", b""),
        (
            "f: error: no; expected a, `b`, c or d\n",
            "{\"file\":\"f\",\"severity\":\"error\",\"code\":\"P6\",\"message\":\"no\",\
        \"expected\":[\"a\",\"`b`\",\"c\",\"d\"],\"related\":[]}\n",
        ),
    )
}

#[test]
fn colours(rt: HostRuntime) -> Result<(), Fail> {
    let mut report = full(rt.alloc())?;
    report.rule = "a rule";
    let text = shown(rt.alloc(), &report, named("policy", POLICY), true)?;
    same(
        &rt,
        text.as_str(),
        "policy:10:43: \u{1b}[1;31merror:\u{1b}[0m \
        \u{1b}[1m`10s` cannot stand here; expected a number of seconds, from 1 to 604800\u{1b}[0m
\u{1b}[34m   10 |\u{1b}[0m maint = '\"test -e /run/maintenance\" every 10s'
\u{1b}[34m      |\u{1b}[0m                                           \u{1b}[31m^^^\u{1b}[0m
\u{1b}[34m   22 |\u{1b}[0m     if $maint
\u{1b}[34m      |\u{1b}[0m        \u{1b}[31m^^^^^^\u{1b}[0m used here
rule: a rule
\u{1b}[32mhint:\u{1b}[0m whole seconds, without a unit: `10`
",
    );
    let mut report = plain(rt.alloc(), Place::File, "no")?;
    report.severity = Severity::Note;
    let text = shown(rt.alloc(), &report, named("f", b""), true)?;
    same(
        &rt,
        text.as_str(),
        "f: \u{1b}[1;36mnote:\u{1b}[0m \u{1b}[1mno\u{1b}[0m\n",
    );
    Ok(())
}
