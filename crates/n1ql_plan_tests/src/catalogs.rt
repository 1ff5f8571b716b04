//! Catalogs from the texts of statements.

use index_ddl::Catalog;
use index_def::{IndexDef, check, is_build_deferred};
use n1ql_ast::{Create, Ddl};
use n1ql_parse::ddl;
use n1ql_value::{Memory, State};
use std::alloc::Global;
use std::sync::Arc;

/// The statement that a text is. A text that is no CREATE ends the test too.
fn creation(alloc: Global, text: &str) -> Result<Create, Memory> {
    match ddl(alloc, text) {
        Ok(Ddl::Create(create)) => Ok(create),
        _ => Err(Memory),
    }
}

/// Its definition. A statement that defines nothing ends the test too.
fn definition(alloc: Global, create: &Create) -> Result<IndexDef, Memory> {
    match check(alloc, create) {
        Ok(def) => Ok(def),
        Err(_) => Err(Memory),
    }
}

/// The definition that a text asks for.
pub fn definition_of(alloc: Global, text: &str) -> Result<IndexDef, Memory> {
    definition(alloc, &creation(alloc, text)?)
}

/// Creates the index of a definition. It goes online, unless its build is deferred.
fn create(catalog: &mut Catalog, def: Arc<IndexDef>, deferred: bool) -> Result<(), Memory> {
    match catalog.create(def, deferred) {
        Ok(number) => {
            put_online(catalog, number);
            Ok(())
        }
        Err(_) => Err(Memory),
    }
}

/// Creates the index that a statement asks for.
fn create_by(alloc: Global, catalog: &mut Catalog, statement: &Create) -> Result<(), Memory> {
    let def = Arc::new(alloc, definition(alloc, statement)?)?;
    create(catalog, def, is_build_deferred(statement))
}

/// Creates the index of a text.
fn add(alloc: Global, catalog: &mut Catalog, text: &str) -> Result<(), Memory> {
    let statement = creation(alloc, text)?;
    create_by(alloc, catalog, &statement)
}

/// Puts an index online that is being built.
fn put_online(catalog: &mut Catalog, number: u32) {
    if let Some(State::Building) = catalog.state(number) {
        catalog.go_online(number);
    }
}

/// The catalog of these indexes, numbered from 0.
pub fn catalog_of(alloc: Global, texts: &[&str]) -> Result<Catalog, Memory> {
    let mut catalog = Catalog::new(alloc);
    for text in texts {
        add(alloc, &mut catalog, text)?;
    }
    Ok(catalog)
}
