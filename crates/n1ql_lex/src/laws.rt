//! What holds of the tokens of every text.

ghost use Rattle.std.specs.Prelude.{◌≡◌, ℕ, ◌⊎◌, List, length};
ghost use Rattle.n1ql_lex.specs.declared.token.Token.{Token};
ghost use Rattle.n1ql_lex.specs.Spans.{BlanksBetween, SpansGrow};
ghost use Rattle.n1ql_lex.specs.Tokens.{IsFault, IsTokens};

/// A text has at most one list of tokens.
pub fn one_token_list()
    ensures { (text : List ℕ) (tokens others : List Token) →
        IsTokens text tokens → IsTokens text others → tokens ≡ others }
{}

/// A text has at most one place of a fault.
pub fn one_fault()
    ensures { (text : List ℕ) (at other : ℕ) → IsFault text at → IsFault text other → at ≡ other }
{}

/// A text has tokens or a fault, and never both.
pub fn tokens_or_fault()
    ensures either { (text : List ℕ) → ((tokens : List Token) × IsTokens text tokens) ⊎ ((at : ℕ) × IsFault text at) }
    ensures never_both { (text : List ℕ) (tokens : List Token) (at : ℕ) → IsTokens text tokens → IsFault text at → ⊥ }
{}

/// The spans of tokens grow, and nothing but blanks stands between them.
pub fn spans_grow()
    ensures grow { (text : List ℕ) (tokens : List Token) → IsTokens text tokens → SpansGrow 0 tokens (length text) }
    ensures blanks { (text : List ℕ) (tokens : List Token) →
        IsTokens text tokens → BlanksBetween text 0 tokens (length text) }
{}
