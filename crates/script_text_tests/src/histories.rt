use n1ql_value::Memory;
use scan_history::{Event, Happened, Numbers, laws};

#[test]
fn an_event_is_read_as_it_was_made(rt: HostRuntime) -> Result<(), Memory> {
    let mut indexes = Numbers::new(rt.alloc());
    indexes.push(7)?;
    let happened = Happened::new(Event::Online {
        c: 3,
        k: 5,
        indexes,
    });
    laws::other_clients();
    match happened.event() {
        Event::Online { c, k, indexes } => {
            assert_eq!(rt; *c, 3);
            assert_eq!(rt; *k, 5);
            assert!(rt; matches!(indexes.get(0), Some(7)));
        }
        _ => assert!(rt; false),
    }
    Ok(())
}
