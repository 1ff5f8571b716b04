ghost use Rattle.std.specs.Prelude.{◌≡◌};
ghost use Rattle.n1ql_parse.specs.inner.Parser as spec;

/// A level of the grammar, the loosest first.
#[derive(Clone, Copy, Debug, PartialEq, Eq)]
pub enum Precedence {
    Or,
    And,
    /// NOT.
    Not,
    /// Comparisons, IS, IN and BETWEEN.
    Test,
    /// `+`, `-` and `||`.
    Add,
    /// `*` and `%`.
    Mul,
    /// The sign `-`.
    Neg,
    /// Fields and places.
    Post,
}

impl Precedence {
    /// The level of the operands, which binds tighter; the tightest stays.
    pub fn tighter(self) -> Precedence
        ensures { result ≡ spec.tighter self }
    {
        match self {
            Precedence::Or => Precedence::And,
            Precedence::And => Precedence::Not,
            Precedence::Not => Precedence::Test,
            Precedence::Test => Precedence::Add,
            Precedence::Add => Precedence::Mul,
            Precedence::Mul => Precedence::Neg,
            Precedence::Neg | Precedence::Post => Precedence::Post,
        }
    }
}
