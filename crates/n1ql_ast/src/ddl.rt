use crate::create::Create;
use crate::names::Names;
use n1ql_value::Text;

/// A statement on indexes.
#[derive(Drop)]
pub enum Ddl {
    Create(Create),
    /// BUILD INDEX, of the indexes with these names.
    Build { keyspace: Text, names: Names },
    /// DROP INDEX.
    Remove { keyspace: Text, name: Text },
}
