//! The verdicts of `prove`.

use crate::analysis::{
    Analysis, Conclusion, Form, put_object, put_replay, put_requests, put_requests_last,
};
use crate::policies::CompiledFile;
use ifs_claim_parse::{Stated, claims_of};
use ifs_prove::{Broken, Obstacle, Verdict, verdicts_of};
use ifs_report::{Place, Report, Severity, Source, shown};
use ifs_terminal::Escaped;
use std::alloc::{AllocError, Global};

/// The verdicts on the claims of a source, which has the definitions of the policy. With the number of a line, they are only the
/// request lines that break the claims there. If the claims are refused, it is the report on them.
pub fn verdicts_on(
    alloc: Global,
    compiled: &CompiledFile<'_>,
    claims: Source<'_>,
    only: Option<u64>,
    form: Form,
) -> Result<Result<Analysis, Report>, AllocError> {
    let stated = claims_of(
        alloc,
        claims.text,
        compiled.text,
        claims.definitions,
        compiled.compiled.policy(),
    )?;
    match stated {
        Ok(stated) => Ok(Ok(judged(alloc, compiled, stated.as_slice(), claims, only, form)?)),
        Err(report) => Ok(Err(report)),
    }
}

/// The verdicts on claims.
fn judged(
    alloc: Global,
    compiled: &CompiledFile<'_>,
    claims: &[Stated],
    source: Source<'_>,
    only: Option<u64>,
    form: Form,
) -> Result<Analysis, AllocError> {
    let (text, policy) = (compiled.text, &compiled.compiled);
    let verdicts = verdicts_of(alloc, text, source.definitions, policy, claims)?;
    let answers = Answers {
        source,
        claims,
        verdicts: verdicts.as_slice(),
    };
    Ok(Analysis {
        lines: match only {
            Some(line) => answers.requests(alloc, line)?,
            None => answers.lines(alloc, form)?,
        },
        counts: String::new(alloc),
        conclusion: answers.conclusion(only),
    })
}

/// Claims with their verdicts.
#[derive(Clone, Copy)]
struct Answers<'a> {
    source: Source<'a>,
    claims: &'a [Stated],
    /// One for each claim, in order.
    verdicts: &'a [Verdict],
}

impl Answers<'_> {
    /// The lines of all verdicts.
    fn lines(self, alloc: Global, form: Form) -> Result<String, AllocError> {
        let mut lines = String::new(alloc);
        for (claim, verdict) in self.claims.iter().zip(self.verdicts) {
            match form {
                Form::Json => put_verdict_object(alloc, &mut lines, claim, verdict, self.source)?,
                Form::Text => put_verdict_lines(alloc, &mut lines, claim.line, verdict)?,
                Form::Excerpts { is_coloured } => {
                    put_excerpt(alloc, &mut lines, claim, verdict, self.source, is_coloured)?;
                }
            }
        }
        Ok(lines)
    }

    /// The request lines that break the claims of a line.
    fn requests(self, alloc: Global, line: u64) -> Result<String, AllocError> {
        let mut requests = String::new(alloc);
        for (claim, verdict) in self.claims.iter().zip(self.verdicts) {
            if u64::from(claim.line) == line {
                requests.push_str(requests_of(verdict))?;
            }
        }
        Ok(requests)
    }

    /// How all claims ended, or those of a line.
    fn conclusion(self, only: Option<u64>) -> Conclusion {
        let mut conclusion = if only.is_some() {
            Conclusion::NoClaim
        } else {
            Conclusion::Good
        };
        for (claim, verdict) in self.claims.iter().zip(self.verdicts) {
            if only.is_some_and(|line| u64::from(claim.line) != line) {
                continue;
            }
            conclusion = match verdict {
                Verdict::Broken(_) => return Conclusion::Defect,
                Verdict::Undecided(_) => Conclusion::Undecided,
                Verdict::Holds | Verdict::Meant if conclusion == Conclusion::NoClaim => {
                    Conclusion::Good
                }
                Verdict::Holds | Verdict::Meant => conclusion,
            };
        }
        conclusion
    }
}

/// Adds the lines of a verdict. A comment that claims nothing has none.
fn put_verdict_lines(
    alloc: Global,
    lines: &mut String,
    line: u32,
    verdict: &Verdict,
) -> Result<(), AllocError> {
    match verdict {
        Verdict::Holds => write!(lines, "line {line}: holds\n"),
        Verdict::Undecided(obstacle) => {
            let why = words_of(*obstacle);
            write!(lines, "line {line}: not decided: {why}\n")
        }
        Verdict::Meant => Ok(()),
        Verdict::Broken(broken) => {
            let mut how = String::new(alloc);
            put_how(&mut how, broken)?;
            write!(lines, "line {line}: broken{}\n", Escaped(how.as_bytes()))?;
            if !is_at_opening(broken) {
                put_requests(lines, broken.requests.as_str())?;
            }
            write!(lines, "    # {}\n", Escaped(broken.situation.as_bytes()))?;
            put_replay(lines, requests_of(verdict))
        }
    }
}

/// Adds a verdict with the line of its claim, or its line alone if the claim holds.
fn put_excerpt(
    alloc: Global,
    lines: &mut String,
    claim: &Stated,
    verdict: &Verdict,
    source: Source<'_>,
    is_coloured: bool,
) -> Result<(), AllocError> {
    match report_of(alloc, claim, verdict)? {
        Some(report) if !matches!(verdict, Verdict::Holds) => {
            lines.push_str(shown(alloc, &report, source, is_coloured)?.as_str())?;
            put_requests_last(lines, requests_of(verdict))
        }
        _ => put_verdict_lines(alloc, lines, claim.line, verdict),
    }
}

/// Adds the JSON object of a verdict. A comment that claims nothing has none.
fn put_verdict_object(
    alloc: Global,
    lines: &mut String,
    claim: &Stated,
    verdict: &Verdict,
    source: Source<'_>,
) -> Result<(), AllocError> {
    match report_of(alloc, claim, verdict)? {
        Some(report) => put_object(alloc, lines, &report, source, requests_of(verdict)),
        None => Ok(()),
    }
}

/// The report on a verdict. A comment that claims nothing has none.
fn report_of(
    alloc: Global,
    claim: &Stated,
    verdict: &Verdict,
) -> Result<Option<Report>, AllocError> {
    let (severity, code) = match verdict {
        Verdict::Holds => (Severity::Note, "holds"),
        Verdict::Broken(_) => (Severity::Warning, "broken"),
        Verdict::Undecided(_) => (Severity::Note, "undecided"),
        Verdict::Meant => return Ok(None),
    };
    let message = message_of(alloc, verdict)?;
    let place = Place::Text(claim.part);
    Ok(Some(Report::new(alloc, severity, code, place, message)))
}

/// The request lines that break a claim. There are none if it is not broken.
fn requests_of(verdict: &Verdict) -> &str {
    match verdict {
        Verdict::Broken(broken) => broken.requests.as_str(),
        _ => "",
    }
}

/// A verdict in words.
fn message_of(alloc: Global, verdict: &Verdict) -> Result<String, AllocError> {
    let mut message = String::new(alloc);
    match verdict {
        Verdict::Holds | Verdict::Meant => message.push_str("holds after any steps")?,
        Verdict::Undecided(obstacle) => write!(message, "not decided: {}", words_of(*obstacle))?,
        Verdict::Broken(broken) => {
            message.push_str("broken")?;
            put_how(&mut message, broken)?;
            write!(message, ": {}", broken.situation)?;
        }
    }
    Ok(message)
}

/// Why a claim is not decided, in words.
fn words_of(obstacle: Obstacle) -> &'static str {
    match obstacle {
        Obstacle::Budget => "the situations that its question may look at are used up",
        Obstacle::NoSteps => "some facts would break it, and no steps were found that lead to them",
    }
}

/// Whether an opening breaks a claim by itself: its requests only take commands.
fn is_at_opening(broken: &Broken) -> bool {
    broken.requests.lines().all(|line| line == "take")
}

/// Adds what breaks a claim.
fn put_how(text: &mut String, broken: &Broken) -> Result<(), AllocError> {
    if let Some(known) = &broken.known {
        write!(text, " after a reload that knows {known}")?;
    }
    text.push_str(if is_at_opening(broken) {
        ", at the opening"
    } else {
        ", by these requests"
    })
}
