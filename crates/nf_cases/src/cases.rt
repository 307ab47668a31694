//! Cases and their directives.

/// One directive of a case: its line in the table, counted from 1, its word, what stands behind the
/// word and one space, and the text of the parts below it.
#[derive(Debug, Drop)]
pub struct Directive {
    pub line: u64,
    pub word: String,
    pub rest: String,
    pub text: Vec<u8>,
}

/// One case: its name, its line in the table, counted from 1, and its directives in their order.
#[derive(Debug, Drop)]
pub struct Case {
    pub name: String,
    pub line: u64,
    pub directives: Vec<Directive>,
}

impl Directive {
    /// Whether this is the directive of a word.
    pub fn is(&self, word: &str) -> bool {
        self.word.as_str() == word
    }
}
