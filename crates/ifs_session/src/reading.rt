//! Lines of replies, read back.

ghost use Rattle.std.specs.Prelude.{◌≡◌, ◌≤◌, ◌<◌, ◌^◌, ◌++◌, ◌∷◌, ◌||◌, List, ℕ, Some, IfSome, IsSomeAnd, length, option_map};
ghost use Rattle.std.specs.List.{prefix_len};
ghost use Rattle.std.specs.Char.{is_ascii_digit};
ghost use Rattle.ifs_base.specs.Numbers.{number_of};
ghost use Rattle.ifs_base.specs.Words.{quoted};
ghost use Rattle.ifs_session.specs.Readings.{says_not_done, says_refused, says_undone};
ghost use Rattle.ifs_session.specs.Requests.{starts_with};
ghost use Rattle.ifs_session.specs.inner.Words.{behind_byte, behind_escape, behind_two};

use ifs_base::{IfaceId, LinkState, Number, TestId, parse_number};
use ifs_core::{Answer, Step};
use std::marker::Model;

/// A line of a trace.
#[derive(Clone, Copy)]
pub struct TraceLine<'a> {
    /// The step.
    pub step: Step,
    /// The name of its reply.
    pub answer: Answer,
    /// The name of the state afterwards, in quotes.
    pub state: &'a [u8],
    /// The number of instructions that it executed.
    pub cost: u32,
    /// The number of commands that it queued.
    pub queued: u16,
}

impl<'a> TraceLine<'a> {
    ghost use Rattle.std.specs.Prelude.{◌≡◌, IsSomeAnd};
    ghost use Rattle.ifs_core.specs.declared.step.Record.{Record};
    ghost use Rattle.ifs_image.specs.declared.parts.ImageParts.{ImageParts};
    ghost use Rattle.ifs_session.specs.Replies.{record_words};
    ghost use Rattle.ifs_session.specs.Readings.{IsRecordInRange, SaysRecord};

    /// Reads a line of a trace, without its newline. Returns `None` if it is no such line.
    pub fn read(line: &'a [u8]) -> Option<TraceLine<'a>>
        // What was written of a record is read.
        ensures { (image : ImageParts) (r : Record) → IsRecordInRange r → line.now ≡ record_words image r → IsSomeAnd result (SaysRecord image r) }
    {
        let mut reader = Reader::new(line);
        let step = reader.step();
        reader.word(b" -> ");
        let answer = reader.answer();
        reader.word(b" ");
        let state = reader.quoted();
        reader.word(b" cost ");
        let cost = reader.number(u32::MAX as u64) as u32;
        reader.word(b" queue ");
        let queued = reader.number(u16::MAX as u64) as u16;
        if !reader.is_at_end() {
            return None;
        }
        Some(TraceLine {
            step,
            answer,
            state,
            cost,
            queued,
        })
    }
}

/// The reply to `status`.
#[derive(Clone, Copy)]
pub struct StatusLine<'a> {
    /// The name of the state, in quotes.
    pub state: &'a [u8],
    /// Whether an evaluation is owed.
    pub is_owed: bool,
    /// The number of commands in the queue.
    pub queue: u64,
    /// The number of tests that run.
    pub running: u64,
    /// The present moment, in seconds.
    pub present: u64,
}

impl<'a> StatusLine<'a> {
    ghost use Rattle.std.specs.Prelude.{◌≡◌, IsSomeAnd};
    ghost use Rattle.ifs_core.specs.Steps.{CoreState};
    ghost use Rattle.ifs_image.specs.declared.parts.ImageParts.{ImageParts};
    ghost use Rattle.ifs_session.specs.Replies.{status_words};
    ghost use Rattle.ifs_session.specs.Readings.{IsStatusInRange, SaysStatus};

    /// Reads the reply to `status`, without its newline. Returns `None` if it is no such line.
    pub fn read(line: &'a [u8]) -> Option<StatusLine<'a>>
        // What was written of a core is read.
        ensures { (image : ImageParts) (s : CoreState) → IsStatusInRange s → line.now ≡ status_words image s → IsSomeAnd result (SaysStatus image s) }
    {
        let mut reader = Reader::new(line);
        reader.word(b"status ");
        let state = reader.quoted();
        reader.word(b" owed ");
        let is_owed = reader.yes_or_no();
        reader.word(b" queue ");
        let queue = reader.number(u64::MAX);
        reader.word(b" running ");
        let running = reader.number(u64::MAX);
        reader.word(b" now ");
        let present = reader.number(u64::MAX);
        if !reader.is_at_end() {
            return None;
        }
        Some(StatusLine {
            state,
            is_owed,
            queue,
            running,
            present,
        })
    }
}

/// What is left of a line. Nothing is left once a part is missing.
#[derive(Drop)]
struct Reader<'a> {
    left: Option<&'a [u8]>,
}

impl<'a> Model for Reader<'a> {
    ghost use Rattle.std.specs.Prelude.{Option, List, ℕ};
    ghost use Rattle.std.specs.Option.{option_map};

    ghost Value = { Option (List ℕ) };

    ghost view = { λ r. option_map (λ left. left.now) r.left };
}

impl<'a> Reader<'a> {
    ghost use Rattle.std.specs.Prelude.{◌≡◌, ◌≤◌, ◌<◌, ◌^◌, ◌++◌, [], ℕ, List, Bool, true, false, Some, IsTrue, decimal, codes};
    ghost use Rattle.std.specs.List.{prefix_len};
    ghost use Rattle.std.specs.Char.{is_ascii_digit};
    ghost use Rattle.ifs_base.specs.declared.ids.IfaceId.{IfaceId};
    ghost use Rattle.ifs_base.specs.declared.ids.TestId.{TestId};
    ghost use Rattle.ifs_base.specs.declared.op.LinkState.{LinkState};
    ghost use Rattle.ifs_base.specs.Words.{link_word, quoted};
    ghost use Rattle.ifs_core.specs.declared.step.Answer.{Answer};
    ghost use Rattle.ifs_core.specs.declared.step.Step.{Step};
    ghost use Rattle.ifs_session.specs.Replies.{yes_or_no, value_word, answer_word, step_words};
    ghost use Rattle.ifs_session.specs.Readings.{IsStepInRange};
    ghost use Rattle.ifs_session.specs.inner.Words.{begins_with, behind, link_in, answer_in, Reads};

    /// All of a line is left.
    fn new(line: &'a [u8]) -> Reader<'a>
        ensures { result ≡ Some line.now }
    {
        Reader { left: Some(line) }
    }

    /// Whether the end of the line is reached, and no part is missing.
    fn is_at_end(&self) -> bool
        ensures { self.now ≡ Some [] → IsTrue result }
    {
        match self.left {
            Some(left) => left.is_empty(),
            None => false,
        }
    }

    /// Passes over a word if it comes next. Returns whether it does.
    fn passes(&mut self, word: &[u8]) -> bool
        ensures said { result ≡ begins_with word.now self.old }
        ensures passed { result ≡ true → self.new ≡ behind word.now self.old }
        ensures kept { result ≡ false → self.new ≡ self.old }
    {
        let Some(left) = self.left else {
            return false;
        };
        match left.strip_prefix(word) {
            Some(rest) => {
                self.left = Some(rest);
                true
            }
            None => false,
        }
    }

    /// Passes over a word, which has to come next.
    fn word(&mut self, word: &[u8])
        ensures { self.new ≡ behind word.now self.old }
    {
        self.left = match self.left {
            Some(left) => left.strip_prefix(word),
            None => None,
        };
    }

    /// Reads a number of at most `most`.
    fn number(&mut self, most: u64) -> u64
        ensures within { result ≤ most }
        ensures reads { (n : ℕ) (rest : List ℕ) → n ≤ most → prefix_len is_ascii_digit rest ≡ 0 → self.old ≡ Some (decimal n ++ rest) → Reads result n self.new rest }
    {
        let Some(left) = self.left else {
            return 0;
        };
        self.left = None;
        let (digits, rest) = left.split_at(digits_in(left));
        let Some(number) = spelled_by(digits) else {
            return 0;
        };
        if number > most {
            return 0;
        }
        self.left = Some(rest);
        number
    }

    /// Reads a text in quotes, and returns it with them.
    fn quoted(&mut self) -> &'a [u8]
        ensures { (text rest : List ℕ) → self.old ≡ Some (quoted text ++ rest) → Reads result.now (quoted text) self.new rest }
    {
        let Some(left) = self.left else {
            return &[];
        };
        self.left = behind_quoted(left);
        match self.left {
            Some(rest) => left.split_at(left.len() - rest.len()).0,
            None => &[],
        }
    }

    /// Reads a link state.
    fn link(&mut self) -> LinkState
        ensures said { result ≡ link_in self.old }
        ensures left { self.new ≡ behind (link_word result) self.old }
    {
        if self.passes(b"up") {
            return LinkState::Up;
        }
        if self.passes(b"down") {
            return LinkState::Down;
        }
        self.word(b"unknown");
        LinkState::Unknown
    }

    /// Reads the value of a test.
    fn value(&mut self) -> bool
        ensures said { result ≡ begins_with (codes "ok") self.old }
        ensures left { self.new ≡ behind (value_word result) self.old }
    {
        let value = self.passes(b"ok");
        if !value {
            self.word(b"fail");
        }
        value
    }

    /// Reads whether something is so.
    fn yes_or_no(&mut self) -> bool
        ensures said { result ≡ begins_with (codes "yes") self.old }
        ensures left { self.new ≡ behind (yes_or_no result) self.old }
    {
        let answer = self.passes(b"yes");
        if !answer {
            self.word(b"no");
        }
        answer
    }

    /// Reads the name of a reply.
    fn answer(&mut self) -> Answer
        ensures said { result ≡ answer_in self.old }
        ensures left { self.new ≡ behind (answer_word result) self.old }
    {
        if self.passes(b"done") {
            return Answer::Done;
        }
        if self.passes(b"same") {
            return Answer::Same;
        }
        if self.passes(b"ticked") {
            return Answer::Ticked;
        }
        self.word(b"taken");
        Answer::Taken
    }

    /// Reads a step. No digit follows it.
    fn step(&mut self) -> Step
        ensures { (step : Step) (rest : List ℕ) → IsStepInRange step → prefix_len is_ascii_digit rest ≡ 0 → self.old ≡ Some (step_words step ++ rest) → Reads result step self.new rest }
    {
        if self.passes(b"link ") {
            return self.link_step();
        }
        if self.passes(b"result ") {
            return self.result_step();
        }
        if self.passes(b"tick ") {
            return Step::Tick(self.number(u64::MAX));
        }
        self.word(b"take");
        Step::Take
    }

    /// Reads an interface and its link state.
    fn link_step(&mut self) -> Step
        ensures { (interface : IfaceId) (link : LinkState) (rest : List ℕ) → interface.0 < 2 ^ 16
            → self.old ≡ Some (decimal interface.0 ++ (codes " " ++ (link_word link ++ rest))) → Reads result (Step.Link interface link) self.new rest }
    {
        let interface = IfaceId(self.number(u16::MAX as u64) as u16);
        self.word(b" ");
        let link = self.link();
        Step::Link(interface, link)
    }

    /// Reads a test, its run and its value.
    fn result_step(&mut self) -> Step
        ensures { (test : TestId) (run : ℕ) (value : Bool) (rest : List ℕ) → test.0 < 2 ^ 16 → run < 2 ^ 64
            → self.old ≡ Some (decimal test.0 ++ (codes " " ++ (decimal run ++ (codes " " ++ (value_word value ++ rest))))) → Reads result (Step.Finished test run value) self.new rest }
    {
        let test = TestId(self.number(u16::MAX as u64) as u16);
        self.word(b" ");
        let run = self.number(u64::MAX);
        self.word(b" ");
        let value = self.value();
        Step::Finished(test, run, value)
    }
}

/// Whether a reply says that its request was not done.
pub fn says_not_done(reply: &[u8]) -> bool
    ensures { result ≡ says_not_done reply.now }
{
    says_refused(reply) || says_undone(reply)
}

/// Whether a reply says that a line or an image was refused.
fn says_refused(reply: &[u8]) -> bool
    ensures { result ≡ says_refused reply.now }
{
    begins_with_either(reply, b"fault", b"refused")
}

/// Whether a reply says that a step was not done.
fn says_undone(reply: &[u8]) -> bool
    ensures { result ≡ says_undone reply.now }
{
    begins_with_either(reply, b"busy", b"backwards")
        || begins_with_either(reply, b"stale", b"nosuch")
}

/// Whether a reply begins with one of two words.
fn begins_with_either(reply: &[u8], word: &[u8], other: &[u8]) -> bool
    ensures { result ≡ (starts_with word.now reply.now || starts_with other.now reply.now) }
{
    reply.starts_with(word) || reply.starts_with(other)
}

/// The number of digits at the front.
fn digits_in(text: &[u8]) -> usize
    ensures value { result ≡ prefix_len is_ascii_digit text.now }
    ensures within { result ≤ length text.now }
{
    text.iter().take_while(|byte| byte.is_ascii_digit()).count()
}

/// The number that digits spell, if it is below 2^64.
#[tactic(auto, using(crate::proofs::ReadBack::number_found))]
fn spelled_by(digits: &[u8]) -> Option<u64>
    ensures { (n : ℕ) → n < 2 ^ 64 → number_of digits.now ≡ Some n → result ≡ Some n }
{
    match parse_number(digits)? {
        Number::Within(number) => Some(number),
        Number::TooGreat => None,
    }
}

/// The bytes behind the quoted text at the front. Returns `None` if there is none.
fn behind_quoted(text: &[u8]) -> Option<&[u8]>
    ensures behind { (inside rest : List ℕ) → text.now ≡ quoted inside ++ rest → IsSomeAnd result (λ left. left.now ≡ rest) }
    ensures within { IfSome result (λ left. length left.now ≤ length text.now) }
{
    let mut left = text.strip_prefix(b"\"")?;
    while let Some(rest) = behind_byte(left) {
        left = rest;
    }
    behind_quote(left)
}

/// The bytes behind a quote. Returns `None` if there is none.
fn behind_quote(text: &[u8]) -> Option<&[u8]>
    ensures behind { (rest : List ℕ) → text.now ≡ 34 ∷ rest → IsSomeAnd result (λ left. left.now ≡ rest) }
    ensures within { IfSome result (λ left. length left.now ≤ length text.now) }
{
    text.strip_prefix(b"\"")
}

/// The bytes behind the first byte of the inside of a quoted text. Returns `None` at its end.
fn behind_byte(inside: &[u8]) -> Option<&[u8]>
    ensures value { option_map (λ rest. rest.now) result ≡ behind_byte inside.now }
    ensures shorter { IfSome result (λ rest. length rest.now < length inside.now) }
{
    let [byte, rest @ ..] = inside else {
        return None;
    };
    match *byte {
        b'"' => None,
        b'\\' => behind_escape(rest),
        _ => Some(rest),
    }
}

/// The bytes behind an escape, after its backslash.
fn behind_escape(text: &[u8]) -> Option<&[u8]>
    ensures value { option_map (λ rest. rest.now) result ≡ behind_escape text.now }
    ensures shorter { IfSome result (λ rest. length rest.now ≤ length text.now) }
{
    let [kind, rest @ ..] = text else {
        return None;
    };
    if *kind == b'x' {
        behind_two(rest)
    } else {
        Some(rest)
    }
}

/// The bytes behind two.
fn behind_two(text: &[u8]) -> Option<&[u8]>
    ensures value { option_map (λ rest. rest.now) result ≡ behind_two text.now }
    ensures shorter { IfSome result (λ rest. length rest.now ≤ length text.now) }
{
    match text {
        [_, _, rest @ ..] => Some(rest),
        _ => None,
    }
}
