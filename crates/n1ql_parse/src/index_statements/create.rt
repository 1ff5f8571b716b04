//! CREATE INDEX and CREATE PRIMARY INDEX.

ghost use Rattle.std.specs.Prelude.{◌≡◌, ◌∷◌, [], IfOk};
ghost use Rattle.n1ql_ast.specs.Statements as grammar;
ghost use Rattle.n1ql_parse.specs.inner.Statements as spec;
ghost use Rattle.n1ql_parse.specs.inner.Steps.{Gives};

use crate::index_statements::clauses::{may_using, may_where, may_with};
use crate::index_statements::keys::key_list;
use crate::index_statements::names::{may_name, on_keyspace};
use crate::tokens::cursor::Cursor;
use crate::tokens::parse_stop::ParseStop;
use n1ql_ast::{Create, Ddl, Expr, Key, Keys, Keyword};
use n1ql_value::{Memory, Text};
use sqlite_items::Boxed;
use std::alloc::Global;

/// The name of a primary index that is given none.
pub fn primary_name(alloc: Global) -> Result<Text, Memory>
    ensures { IfOk result (λ name. name ≡ grammar.primary_name) }
{
    Text::of(alloc, "#primary")
}

/// The keys of a primary index: the id of the document.
fn primary_keys(alloc: Global) -> Result<Keys, Memory>
    ensures { IfOk result (λ keys. keys ≡ grammar.primary_key ∷ []) }
{
    let meta = Boxed::new(alloc, Expr::MetaOf(true))?;
    let id = Expr::Field(meta, Text::of(alloc, "id")?);
    let mut keys = Keys::new(alloc);
    keys.push(Key::Plain(id))?;
    Ok(keys)
}

/// The definition of a primary index.
fn primary_index(
    alloc: Global,
    name: Option<Text>,
    keyspace: Text,
    options: Option<Expr>,
) -> Result<Create, Memory>
    ensures { IfOk result (λ index. index ≡ grammar.primary_index name keyspace options) }
{
    let name = match name {
        Some(name) => name,
        None => primary_name(alloc)?,
    };
    Ok(Create {
        name,
        keyspace,
        keys: primary_keys(alloc)?,
        filter: None,
        options,
        primary: true,
    })
}

/// CREATE INDEX, after its name and its keyspace.
#[tactic(auto, unfolding(crate::specs::inner::Statements::create_on))]
fn create_on(
    alloc: Global,
    name: Text,
    keyspace: Text,
    tokens: &mut Cursor<'_>,
) -> Result<Ddl, ParseStop>
    ensures { Gives (spec.create_on name keyspace tokens.old) result tokens.new }
{
    let keys = key_list(alloc, keyspace.as_str(), tokens)?;
    let filter = may_where(alloc, keyspace.as_str(), tokens)?;
    may_using(tokens)?;
    let options = may_with(alloc, keyspace.as_str(), tokens)?;
    Ok(Ddl::Create(Create {
        name,
        keyspace,
        keys,
        filter,
        options,
        primary: false,
    }))
}

/// CREATE INDEX, after its words.
#[tactic(auto, unfolding(crate::specs::inner::Statements::create_index))]
fn create_index(alloc: Global, tokens: &mut Cursor<'_>) -> Result<Ddl, ParseStop>
    ensures { Gives (spec.create_index tokens.old) result tokens.new }
{
    let name = tokens.name(alloc)?;
    let keyspace = on_keyspace(alloc, tokens)?;
    create_on(alloc, name, keyspace, tokens)
}

/// CREATE PRIMARY INDEX, after PRIMARY.
#[tactic(auto, unfolding(crate::specs::inner::Statements::create_primary))]
fn create_primary(alloc: Global, tokens: &mut Cursor<'_>) -> Result<Ddl, ParseStop>
    ensures { Gives (spec.create_primary tokens.old) result tokens.new }
{
    tokens.expect(Keyword::Index)?;
    let name = may_name(alloc, tokens)?;
    let keyspace = on_keyspace(alloc, tokens)?;
    may_using(tokens)?;
    let options = may_with(alloc, keyspace.as_str(), tokens)?;
    Ok(Ddl::Create(primary_index(alloc, name, keyspace, options)?))
}

/// The rest of a statement after CREATE.
#[tactic(auto, unfolding(crate::specs::inner::Statements::create))]
pub fn create(alloc: Global, tokens: &mut Cursor<'_>) -> Result<Ddl, ParseStop>
    ensures { Gives (spec.create tokens.old) result tokens.new }
{
    if tokens.eat(Keyword::Primary) {
        return create_primary(alloc, tokens);
    }
    tokens.expect(Keyword::Index)?;
    create_index(alloc, tokens)
}
