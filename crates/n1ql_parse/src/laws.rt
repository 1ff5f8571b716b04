//! What holds of the readings and faults of every text.

ghost use Rattle.std.specs.Prelude.{◌≡◌, ℕ, ◌⊎◌, List};
ghost use Rattle.n1ql_ast.specs.declared.ddl.Ddl.{Ddl};
ghost use Rattle.n1ql_ast.specs.declared.expr.Expr.{Expr};
ghost use Rattle.n1ql_ast.specs.declared.selection.Selection.{Selection};
ghost use Rattle.n1ql_parse.specs.Faults.{IsDdlFaultAt, IsFaultAt, IsSelectFaultAt};
ghost use Rattle.n1ql_parse.specs.Readings.{IsReading, IsReadingDdl, IsReadingSelect};

use n1ql_lex::laws as lex;

/// A text is at most one expression.
pub fn one_reading()
    ensures { (text alias : List ℕ) (e other : Expr) → IsReading text alias e → IsReading text alias other → e ≡ other }
{
    lex::one_token_list();
}

/// A text has at most one place of a fault.
pub fn one_fault()
    ensures { (text : List ℕ) (at other : ℕ) → IsFaultAt text at → IsFaultAt text other → at ≡ other }
{
    lex::one_token_list();
    lex::one_fault();
    lex::tokens_or_fault();
}

/// A text is an expression or has a fault, and never both.
pub fn reading_or_fault()
    ensures either { (text alias : List ℕ) → ((e : Expr) × IsReading text alias e) ⊎ ((at : ℕ) × IsFaultAt text at) }
    ensures never_both { (text alias : List ℕ) (e : Expr) (at : ℕ) → IsReading text alias e → IsFaultAt text at → ⊥ }
{
    lex::one_token_list();
    lex::tokens_or_fault();
}

/// A text is at most one statement on indexes.
pub fn one_ddl()
    ensures { (text : List ℕ) (d other : Ddl) → IsReadingDdl text d → IsReadingDdl text other → d ≡ other }
{
    lex::one_token_list();
}

/// A text has at most one place of a fault as a statement on indexes.
pub fn one_ddl_fault()
    ensures { (text : List ℕ) (at other : ℕ) → IsDdlFaultAt text at → IsDdlFaultAt text other → at ≡ other }
{
    lex::one_token_list();
    lex::one_fault();
    lex::tokens_or_fault();
}

/// A text is a statement on indexes or has a fault as one, and never both.
pub fn ddl_or_fault()
    ensures either { (text : List ℕ) → ((d : Ddl) × IsReadingDdl text d) ⊎ ((at : ℕ) × IsDdlFaultAt text at) }
    ensures never_both { (text : List ℕ) (d : Ddl) (at : ℕ) → IsReadingDdl text d → IsDdlFaultAt text at → ⊥ }
{
    lex::one_token_list();
    lex::tokens_or_fault();
}

/// A text is at most one SELECT.
pub fn one_select()
    ensures { (text : List ℕ) (q other : Selection Expr) → IsReadingSelect text q → IsReadingSelect text other → q ≡ other }
{
    lex::one_token_list();
}

/// A text has at most one place of a fault as a SELECT.
pub fn one_select_fault()
    ensures { (text : List ℕ) (at other : ℕ) → IsSelectFaultAt text at → IsSelectFaultAt text other → at ≡ other }
{
    lex::one_token_list();
    lex::one_fault();
    lex::tokens_or_fault();
}

/// A text is a SELECT or has a fault as one, and never both.
pub fn select_or_fault()
    ensures either { (text : List ℕ) → ((q : Selection Expr) × IsReadingSelect text q) ⊎ ((at : ℕ) × IsSelectFaultAt text at) }
    ensures never_both { (text : List ℕ) (q : Selection Expr) (at : ℕ) → IsReadingSelect text q → IsSelectFaultAt text at → ⊥ }
{
    lex::one_token_list();
    lex::tokens_or_fault();
}
