//! The encodings of documents, and how far a character or the word `encoding` has been read.

/// How the bytes of a text stand for characters.
#[derive(Clone, Copy, Debug, PartialEq, Eq, Drop)]
pub enum Encoding {
    Utf8,
    Ascii,
    Latin1,
}

/// What is missing to the end of a character: nothing, so many bytes, or the bytes after a first
/// byte that restricts the second.
#[derive(Clone, Copy, Debug, PartialEq, Eq, Drop)]
pub enum Tail {
    Whole,
    One,
    Two,
    Three,
    AfterE0,
    AfterEd,
    AfterF0,
    AfterF4,
}

/// How far a search for `encoding`, an equals sign and a quote has come, white space between them
/// left out.
#[derive(Clone, Copy, Debug, PartialEq, Eq, Drop)]
pub enum Seek {
    Nothing,
    E,
    En,
    Enc,
    Enco,
    Encod,
    Encodi,
    Encodin,
    Word,
    Equals,
}
