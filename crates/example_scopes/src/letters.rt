//! What the letters of a C program are part of.

/// What was read last.
#[derive(Clone, Copy)]
pub enum State {
    /// White space, a sign, or the end of a string or a comment.
    Between,
    /// A name, or a word of the language.
    Name,
    /// A number, with the letters in it.
    Number,
    /// A slash, which may begin a comment.
    Slash,
    /// A comment up to the end of its line.
    Line,
    /// A comment up to `*/`.
    Comment,
    /// A `*` in such a comment.
    Star,
    /// A string or a character in these quotes, which ends with its line if not before.
    Quoted(char),
    /// A backslash between these quotes.
    Escape(char),
}

impl State {
    /// The state after this letter.
    pub fn after(self, letter: char) -> State {
        match (self, letter) {
            (State::Line, '\n') => State::Between,
            (State::Line, _) => State::Line,
            (State::Comment | State::Star, '*') => State::Star,
            (State::Star, '/') => State::Between,
            (State::Comment | State::Star, _) => State::Comment,
            (State::Quoted(_), '\n') => State::Between,
            (State::Quoted(quote), '\\') => State::Escape(quote),
            (State::Quoted(quote), _) if quote != letter => State::Quoted(quote),
            (State::Quoted(_), _) => State::Between,
            (State::Escape(quote), _) => State::Quoted(quote),
            (State::Slash, '/') => State::Line,
            (State::Slash, '*') => State::Comment,
            (State::Name | State::Number, _) if is_in_name(letter) => self,
            _ => State::first(letter),
        }
    }

    /// What a letter begins.
    fn first(letter: char) -> State {
        match letter {
            '/' => State::Slash,
            '"' | '\'' => State::Quoted(letter),
            '0'..='9' => State::Number,
            _ if is_in_name(letter) => State::Name,
            _ => State::Between,
        }
    }
}

/// Whether a name may have the letter after its first one.
fn is_in_name(letter: char) -> bool {
    letter.is_alphanumeric() || letter == '_'
}

/// The words of the language.
const KEYWORDS: [&str; 34] = [
    "auto", "break", "case", "char", "const", "continue", "default", "do", "double", "else",
    "enum", "extern", "float", "for", "goto", "if", "inline", "int", "long", "register",
    "restrict", "return", "short", "signed", "sizeof", "static", "struct", "switch", "typedef",
    "union", "unsigned", "void", "volatile", "while",
];

/// Whether a name is a word of the language.
pub fn is_keyword(name: &str) -> bool {
    KEYWORDS.contains(&name)
}
