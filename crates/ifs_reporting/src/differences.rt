//! The differences of `compare`.

use crate::analysis::{Analysis, Conclusion, Form, put_object, put_requests_last};
use crate::policies::CompiledFile;
use ifs_base::LinkState;
use ifs_compare::{Compared, Difference, compare, opening_under, place};
use ifs_report::{Part, Place, Report, Severity, Source, shown};
use ifs_terminal::Escaped;
use std::alloc::{AllocError, Global};

/// What differs between two policies. With links it also has the commands that the opening of the new policy runs if these links
/// are known.
pub fn differences_between(
    alloc: Global,
    old: &CompiledFile<'_>,
    new: &CompiledFile<'_>,
    links: &[(&str, LinkState)],
    form: Form,
) -> Result<Analysis, AllocError> {
    let mut compared = compare(alloc, &old.compiled, &new.compiled)?;
    place(&mut compared, &new.tree);
    Ok(Analysis {
        lines: lines_of(alloc, &compared, new, links, form)?,
        counts: counts_of(alloc, &compared, form)?,
        conclusion: conclusion_of(&compared),
    })
}

/// The interface of the first of some links that neither policy names.
pub fn link_of_neither<'a>(
    old: &CompiledFile<'_>,
    new: &CompiledFile<'_>,
    links: &[(&'a str, LinkState)],
) -> Option<&'a str> {
    for (name, _state) in links {
        if !has_interface(old, name) && !has_interface(new, name) {
            return Some(*name);
        }
    }
    None
}

/// Whether a policy names an interface.
fn has_interface(file: &CompiledFile<'_>, wanted: &str) -> bool {
    let interfaces = &file.compiled.policy().tables().interfaces;
    for number in 0..interfaces.len() {
        if interfaces
            .get(number)
            .is_some_and(|name| name.as_str() == wanted)
        {
            return true;
        }
    }
    false
}

/// The lines of all differences and of an opening.
fn lines_of(
    alloc: Global,
    compared: &Compared,
    new: &CompiledFile<'_>,
    links: &[(&str, LinkState)],
    form: Form,
) -> Result<String, AllocError> {
    let mut lines = String::new(alloc);
    put_differences(
        alloc,
        &mut lines,
        &compared.differences,
        "differs",
        new.source,
        form,
    )?;
    put_differences(
        alloc,
        &mut lines,
        &compared.undecided,
        "undecided",
        new.source,
        form,
    )?;
    if !links.is_empty() {
        let commands = opening_under(alloc, new.compiled.policy(), links)?;
        put_opening(alloc, &mut lines, commands.as_slice(), new.source, form)?;
    }
    Ok(lines)
}

/// Adds differences, or questions that are not decided, with this kind.
fn put_differences(
    alloc: Global,
    lines: &mut String,
    differences: &Vec<Difference>,
    kind: &'static str,
    source: Source<'_>,
    form: Form,
) -> Result<(), AllocError> {
    for difference in differences {
        match form {
            Form::Json => put_difference_object(alloc, lines, difference, kind, source)?,
            Form::Text => put_difference_lines(lines, difference, source.name)?,
            Form::Excerpts { is_coloured } => {
                let report = report_of(alloc, difference, kind, source)?;
                lines.push_str(shown(alloc, &report, source, is_coloured)?.as_str())?;
                put_requests_last(lines, difference.requests.as_str())?;
            }
        }
    }
    Ok(())
}

/// Adds a difference with its request lines.
fn put_difference_lines(
    lines: &mut String,
    difference: &Difference,
    name: &str,
) -> Result<(), AllocError> {
    lines.push_str(name)?;
    if difference.line > 0 {
        write!(lines, ":{}", difference.line)?;
    }
    write!(lines, ": {}\n", Escaped(difference.report.as_bytes()))?;
    put_requests_last(lines, difference.requests.as_str())
}

/// Adds the JSON object of a difference.
fn put_difference_object(
    alloc: Global,
    lines: &mut String,
    difference: &Difference,
    kind: &'static str,
    source: Source<'_>,
) -> Result<(), AllocError> {
    let report = report_of(alloc, difference, kind, source)?;
    put_object(alloc, lines, &report, source, difference.requests.as_str())
}

/// The report on a difference, of this kind.
fn report_of(
    alloc: Global,
    difference: &Difference,
    kind: &'static str,
    source: Source<'_>,
) -> Result<Report, AllocError> {
    let place = place_of_line(source.text, difference.line);
    let message = String::from_str(alloc, difference.report.as_str())?;
    Ok(Report::new(alloc, Severity::Note, kind, place, message))
}

/// The place of a line of a text, or the whole file for line 0.
fn place_of_line(text: &[u8], line: u32) -> Place {
    let mut start = 0usize;
    let mut left = line;
    for part in text.split(|byte| *byte == b'\n') {
        let end = start.saturating_add(part.len());
        left = left.saturating_sub(1);
        if left == 0 {
            break;
        }
        start = end.saturating_add(1);
    }
    if line == 0 {
        Place::File
    } else {
        Place::Text(Part { start, end: start })
    }
}

/// Adds the commands of an opening.
fn put_opening(
    alloc: Global,
    lines: &mut String,
    commands: &[String],
    source: Source<'_>,
    form: Form,
) -> Result<(), AllocError> {
    if !matches!(form, Form::Json) {
        return put_commands(lines, commands);
    }
    let mut message = String::new(alloc);
    put_commands(&mut message, commands)?;
    let report = Report::new(alloc, Severity::Note, "opening", Place::File, message);
    put_object(alloc, lines, &report, source, "")
}

/// Adds the lines of the commands of an opening.
fn put_commands(lines: &mut String, commands: &[String]) -> Result<(), AllocError> {
    if commands.is_empty() {
        return lines.push_str("the opening runs no command\n");
    }
    lines.push_str("the opening runs these commands\n")?;
    for command in commands {
        write!(lines, "    {}\n", Escaped(command.as_bytes()))?;
    }
    Ok(())
}

/// The line with how many differences there are, and how many questions are not decided.
fn counts_of(alloc: Global, compared: &Compared, form: Form) -> Result<String, AllocError> {
    let (differences, undecided) = (compared.differences.len(), compared.undecided.len());
    let plural = if differences == 1 { "" } else { "s" };
    let mut line = String::new(alloc);
    match form {
        Form::Json => write!(
            line,
            "{{\"differences\":{differences},\"undecided\":{undecided}}}\n"
        )?,
        _ if compared.is_same() => line.push_str("the same for every list of steps\n")?,
        _ => write!(
            line,
            "{differences} difference{plural}, {undecided} not decided\n"
        )?,
    }
    Ok(line)
}

/// How `compare` ended.
fn conclusion_of(compared: &Compared) -> Conclusion {
    if !compared.differences.is_empty() {
        Conclusion::Defect
    } else if compared.is_same() {
        Conclusion::Good
    } else {
        Conclusion::Undecided
    }
}
