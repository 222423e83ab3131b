//! The cases of a file and the sections of a case, borrowed from the file's text.

/// The mark of a case, with the newline before it.
pub const CASE: &str = "\n=== ";

/// The mark of a section, with the newline before it.
pub const SECTION: &str = "\n--- ";

/// A case: its name, and its text from the name on.
#[derive(Clone, Copy)]
pub struct Case<'a> {
    pub name: &'a str,
    pub text: &'a str,
}

/// A section: its word, its flags with spaces between them, and its lines. The last line has no newline.
#[derive(Clone, Copy)]
pub struct Section<'a> {
    pub word: &'a str,
    pub flags: &'a str,
    pub lines: Option<&'a str>,
}

impl<'a> Case<'a> {
    /// The case of the text between two marks of cases.
    pub fn new(piece: &'a str) -> Case<'a> {
        let text = piece.trim_end();
        let (name, _rest) = text.split_once('\n').unwrap_or((text, ""));
        Case { name, text }
    }

    /// The first section with a word.
    pub fn section(self, word: &str) -> Option<Section<'a>> {
        for piece in self.text.split(SECTION).skip(1) {
            let section = Section::new(piece);
            if section.word == word {
                return Some(section);
            }
        }
        None
    }

    /// Whether there is a section with a word.
    pub fn has_section(self, word: &str) -> bool {
        self.section(word).is_some()
    }

    /// How many sections have a word.
    pub fn count_of(self, word: &str) -> usize {
        let mut count: usize = 0;
        for piece in self.text.split(SECTION).skip(1) {
            if Section::new(piece).word == word {
                count = count.saturating_add(1);
            }
        }
        count
    }
}

impl<'a> Section<'a> {
    /// The section of the text between two marks of sections.
    pub fn new(piece: &'a str) -> Section<'a> {
        let (header, lines) = match piece.split_once('\n') {
            Some((header, lines)) => (header, Some(lines)),
            None => (piece, None),
        };
        let (word, flags) = header.split_once(' ').unwrap_or((header, ""));
        Section { word, flags, lines }
    }

    /// Whether it has a flag.
    pub fn has_flag(self, flag: &str) -> bool {
        self.flags.split(' ').any(|found| found == flag)
    }
}

/// The first case of a name.
pub fn case_named<'a>(file: &'a str, name: &str) -> Option<Case<'a>> {
    for piece in file.split(CASE).skip(1) {
        let case = Case::new(piece);
        if case.name == name {
            return Some(case);
        }
    }
    None
}

/// How many cases have a name.
pub fn cases_named(file: &str, name: &str) -> usize {
    let mut count: usize = 0;
    for piece in file.split(CASE).skip(1) {
        if Case::new(piece).name == name {
            count = count.saturating_add(1);
        }
    }
    count
}
