//! Comments for `lint`: `# lint: may flap STATE..` says that a round is meant.

ghost use Rattle.std.specs.Prelude.{◌≡◌, IfOk, IfSome, codes};

use ifs_base::StateId;
use ifs_lex::Lexeme;
use ifs_policy::Policy;
use ifs_report::{Draft, Part, Place, Report, Severity};
use std::alloc::{AllocError, Global};

/// A comment for `lint`.
#[derive(Drop)]
pub(crate) struct Remark<'a> {
    /// Where its words behind `lint:` are.
    pub part: Part,
    /// The words.
    pub words: &'a str,
    /// The states that it names behind `may flap`. None if it says something else.
    pub states: Option<Vec<&'a str>>,
}

impl Remark<'_> {
    /// The report on a comment that says nothing that `lint` knows, or names no state. None on another one.
    pub fn wrong(&self, alloc: Global, policy: &Policy) -> Result<Option<Report>, AllocError>
        ensures kind { IfOk result (λ found. IfSome found (λ report. report.code.now ≡ codes "comment")) }
        ensures severity { IfOk result (λ found. IfSome found (λ report. report.severity ≡ Severity.Warning)) }
    {
        let Some(states) = &self.states else {
            let report = self.report(
                alloc,
                self.words,
                " is no comment of `lint`",
                "`may flap STATE..`",
            )?;
            return Ok(Some(report));
        };
        for name in states {
            if state_named(policy, name).is_none() {
                let report = self.report(
                    alloc,
                    name,
                    " is no state, so this comment has no effect",
                    "a state",
                )?;
                return Ok(Some(report));
            }
        }
        Ok(None)
    }

    /// A warning on the comment.
    fn report(
        &self,
        alloc: Global,
        word: &str,
        behind: &str,
        expected: &'static str,
    ) -> Result<Report, AllocError>
        ensures kind { IfOk result (λ report. report.code.now ≡ codes "comment") }
        ensures severity { IfOk result (λ report. report.severity ≡ Severity.Warning) }
    {
        let mut draft = Draft::new(alloc, Severity::Warning);
        draft.at(Place::Text(self.part));
        draft.say_quoted("", word, behind);
        draft.expect(expected);
        let mut report = draft.finish()?;
        report.code = "comment";
        report.severity = Severity::Warning;
        Ok(report)
    }
}

/// Each comment for `lint` of a text with these lexemes.
pub(crate) fn remarks_of<'a>(
    alloc: Global,
    text: &'a str,
    lexemes: &[Lexeme<'_>],
) -> Result<Vec<Remark<'a>>, AllocError> {
    let mut remarks = Vec::new(alloc);
    let mut from = 0usize;
    for found in lexemes {
        let Lexeme { span, .. } = found;
        let between = text.get(from..span.start as usize).unwrap_or("");
        put_remarks(alloc, &mut remarks, between, from)?;
        from = span.end as usize;
    }
    Ok(remarks)
}

/// Adds the comments of what is between two lexemes, from an offset on.
fn put_remarks<'a>(
    alloc: Global,
    remarks: &mut Vec<Remark<'a>>,
    between: &'a str,
    from: usize,
) -> Result<(), AllocError> {
    let mut start = from;
    for line in between.split('\n') {
        if let Some(remark) = remark_in(alloc, line, start)? {
            remarks.push(remark)?;
        }
        start = start.saturating_add(line.len()).saturating_add(1);
    }
    Ok(())
}

/// The comment of a line that starts at an offset.
fn remark_in(alloc: Global, line: &str, start: usize) -> Result<Option<Remark<'_>>, AllocError> {
    let Some(behind) = behind_lint(line) else {
        return Ok(None);
    };
    let words = behind.trim_end();
    let begin = start.saturating_add(line.len().saturating_sub(behind.len()));
    Ok(Some(Remark {
        part: Part {
            start: begin,
            end: begin.saturating_add(words.len()),
        },
        words,
        states: states_in(alloc, words)?,
    }))
}

/// What follows `# lint:` on a line.
fn behind_lint(line: &str) -> Option<&str> {
    let (_before, comment) = line.split_once('#')?;
    let words = comment.trim_start().strip_prefix("lint:")?;
    Some(words.trim_start())
}

/// The states that words name behind `may flap`.
fn states_in(alloc: Global, words: &str) -> Result<Option<Vec<&str>>, AllocError> {
    let Some(names) = words.strip_prefix("may flap ") else {
        return Ok(None);
    };
    let mut states = Vec::new(alloc);
    let mut left = names.trim_start();
    for _ in 0..names.len() {
        let Some((name, behind)) = first_name(left) else {
            break;
        };
        states.push(name)?;
        left = behind.trim_start();
    }
    Ok(Some(states))
}

/// The first name of some words, which may be between quotes, and what follows it.
fn first_name(words: &str) -> Option<(&str, &str)> {
    if words.is_empty() {
        return None;
    }
    if let Some(quoted) = words.strip_prefix('"')
        && let Some(parts) = quoted.split_once('"')
    {
        return Some(parts);
    }
    let name = words.split_whitespace().next()?;
    let behind = words.get(name.len()..)?;
    Some((name, behind))
}

/// The states of a policy that a comment names, each once. None if it names one that the policy does not have.
pub(crate) fn states_named(
    alloc: Global,
    policy: &Policy,
    names: &[&str],
) -> Result<Option<Vec<StateId>>, AllocError> {
    let mut states = Vec::new(alloc);
    for name in names {
        let Some(state) = state_named(policy, name) else {
            return Ok(None);
        };
        if !states.contains(&state) {
            states.push(state)?;
        }
    }
    Ok(Some(states))
}

/// The state with a name.
pub(crate) fn state_named(policy: &Policy, wanted: &str) -> Option<StateId> {
    for number in 0..policy.counts().states {
        let state = StateId(number);
        if policy
            .state(state)
            .is_some_and(|name| name.as_str() == wanted)
        {
            return Some(state);
        }
    }
    None
}

/// Adds the comment by which a round of states is meant as a hint, unless it cannot have one of their names.
pub(crate) fn hint_comment(draft: &mut Draft, names: &[&str]) {
    if !names.iter().all(|name| can_have(name)) {
        return;
    }
    draft.hint("if this is meant, say so by the comment `# lint: may flap");
    for name in names {
        let quote = if is_quoted(name) { "\"" } else { "" };
        draft.hint(" ");
        draft.hint_of(quote, name, quote);
    }
    draft.hint("`");
}

/// Whether a comment can name this.
fn can_have(name: &str) -> bool {
    !name
        .chars()
        .any(|character| character == '"' || character.is_control())
}

/// Whether a comment has a name between quotes.
fn is_quoted(name: &str) -> bool {
    name.is_empty() || name.chars().any(|character| character.is_whitespace())
}
