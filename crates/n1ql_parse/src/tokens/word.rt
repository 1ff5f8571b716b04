use n1ql_value::Text;

/// A name, and whether it stands in backquotes.
#[derive(Drop)]
pub struct Word {
    pub text: Text,
    pub quoted: bool,
}
