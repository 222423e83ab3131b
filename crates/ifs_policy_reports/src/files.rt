//! What a file is that is no text.

/// The first bytes of files that are no text, each with what the file is.
const SIGNATURES: [(&[u8], &str); 16] = [
    (
        b"IFSV",
        "the file is an image: `ifsvm verify` and `ifsvm disasm` read images",
    ),
    (
        b"\xff\xfe",
        "the file is in UTF-16: `iconv -f utf-16 -t utf-8` makes UTF-8",
    ),
    (
        b"\xfe\xff",
        "the file is in UTF-16: `iconv -f utf-16 -t utf-8` makes UTF-8",
    ),
    (b"\x1f\x8b", "the file is compressed: `gzip -d` reads it"),
    (b"BZh", "the file is compressed: `bzip2 -d` reads it"),
    (b"\xfd7zXZ", "the file is compressed: `xz -d` reads it"),
    (
        b"\x28\xb5\x2f\xfd",
        "the file is compressed: `zstd -d` reads it",
    ),
    (b"PK\x03\x04", "the file is a zip archive"),
    (b"\x7fELF", "the file is a program"),
    (b"\x89PNG", "the file is a picture"),
    (b"\xff\xd8\xff", "the file is a picture"),
    (b"GIF8", "the file is a picture"),
    (b"%PDF", "the file is a PDF document"),
    (b"SQLite format 3", "the file is a database"),
    (b"\xd0\xcf\x11\xe0", "the file is an office document"),
    (b"!<arch>", "the file is an archive"),
];

/// What a file is by its first bytes, if it is no text. It is empty if they do not say.
pub(crate) fn kind_of_file(bytes: &[u8]) -> &'static str {
    for (signature, kind) in &SIGNATURES {
        if bytes.starts_with(signature) {
            return kind;
        }
    }
    match bytes {
        [first, 0, second, 0, ..] if *first != 0 && *second != 0 => {
            "the file is in UTF-16: `iconv -f utf-16le -t utf-8` makes UTF-8"
        }
        [0, first, 0, second, ..] if *first != 0 && *second != 0 => {
            "the file is in UTF-16: `iconv -f utf-16be -t utf-8` makes UTF-8"
        }
        _ => "",
    }
}
