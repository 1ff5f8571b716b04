use crate::{Catalog, DdlFault};
use index_def::IndexDef;
use n1ql_ast::Keys;
use n1ql_expr::Conjuncts;
use n1ql_value::{Memory, State, Text};
use std::alloc::Global;
use std::sync::Arc;
use std::test::Fail;

/// A definition of this name that no test looks into.
fn definition(alloc: Global, name: &str) -> Result<Arc<IndexDef>, Memory> {
    Ok(Arc::new(
        alloc,
        IndexDef {
            name: Text::of(alloc, name)?,
            keys: Keys::new(alloc),
            filter: Conjuncts::new(alloc),
            primary: false,
        },
    )?)
}

fn may_be_sent<T: Send>() {}

#[test]
fn a_catalog_may_go_to_another_thread(_rt: HostRuntime) {
    may_be_sent::<Catalog>();
}

/// Creates an index of this name.
fn create(
    alloc: Global,
    catalog: &mut Catalog,
    name: &str,
    deferred: bool,
) -> Result<u32, DdlFault> {
    let def = definition(alloc, name)?;
    catalog.create(def, deferred)
}

/// The number and the name of the live index at a place.
fn shown(catalog: &Catalog, at: usize) -> Option<(u32, &str)> {
    let index = catalog.get(at)?;
    Some((index.number(), index.def().name.as_str()))
}

const NAMES: [&str; 17] = [
    "a", "b", "c", "d", "e", "f", "g", "h", "i", "j", "k", "l", "m", "n", "o", "p", "q",
];

#[test]
fn the_seventeenth_creation_is_one_too_many(rt: HostRuntime) -> Result<(), Fail> {
    let alloc = rt.alloc();
    let mut catalog = Catalog::new(alloc);
    for at in 0..16 {
        let _ = create(alloc, &mut catalog, NAMES[at], true);
    }
    assert_eq!(rt; catalog.len(), 16);
    assert_eq!(rt;
        create(alloc, &mut catalog, "a", true),
        Err(DdlFault::Exists)
    );
    assert_eq!(rt; catalog.remove("c"), Ok(2));
    assert_eq!(rt; shown(&catalog, 2), Some((3, "d")));
    assert_eq!(rt;
        create(alloc, &mut catalog, "q", true),
        Err(DdlFault::TooMany)
    );
    assert_eq!(rt; catalog.remove("c"), Err(DdlFault::Unknown));
    Ok(())
}

#[test]
fn a_build_takes_each_index_once(rt: HostRuntime) -> Result<(), Fail> {
    let alloc = rt.alloc();
    let mut catalog = Catalog::new(alloc);
    assert_eq!(rt; create(alloc, &mut catalog, "a", true), Ok(0));
    assert_eq!(rt; create(alloc, &mut catalog, "b", false), Ok(1));
    assert_eq!(rt; create(alloc, &mut catalog, "c", true), Ok(2));
    let names = [
        Text::of(alloc, "c")?,
        Text::of(alloc, "a")?,
        Text::of(alloc, "c")?,
    ];
    match catalog.build(&names) {
        Ok(numbers) => assert_eq!(rt; numbers.as_slice(), [2, 0].as_slice()),
        Err(_) => assert!(rt; false),
    }
    let states = (
        catalog.state(0),
        catalog.state(1),
        catalog.state(2),
        catalog.state(3),
    );
    let building = Some(State::Building);
    assert_eq!(rt; states, (building, building, building, None));
    assert_eq!(rt; catalog.build(&names).err(), Some(DdlFault::NotDeferred));
    let unknown = [Text::of(alloc, "a")?, Text::of(alloc, "x")?];
    assert_eq!(rt; catalog.build(&unknown).err(), Some(DdlFault::Unknown));
    assert_eq!(rt;
        (catalog.number_of("c"), catalog.number_of("x")),
        (Some(2), None)
    );
    assert!(rt; catalog.live(2).is_some());
    Ok(())
}
