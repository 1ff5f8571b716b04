//! A line of the report for each event and each refusal.
use index_def::{IndexDef, Reason};
use n1ql_ast::Keys;
use n1ql_value::{ListOf, Memory, State, Text};
use scan_history::{
    AnswerList, Answered, Done, End, EndList, Event, Events, Happened, Numbers, Script, Why,
};
use script_text::{read_script, report};
use seq_vector::{Vector, zero};
use std::alloc::Global;
use std::process::Abort;
use std::sync::Arc;
use std::test::Fail;
use vb_store::VbStore;

const HEADER: &str = r#"{"gsi":1,"vbuckets":3,"clients":1}"#;

const END: &str = r#"{"e":"end","events":"#;

/// The script of a header. A header that is none ends the test too.
fn script(alloc: Global) -> Result<Script, Memory> {
    match read_script(alloc, HEADER.as_bytes()) {
        Ok(script) => Ok(script),
        Err(_) => Err(Memory),
    }
}

/// A vector of three entries.
fn vector(alloc: Global, entries: [u64; 3]) -> Result<Vector, Memory> {
    let mut vector = zero(alloc, 3)?;
    for vb in 0..3 {
        if vb < vector.len() {
            vector.set(vb, entries[vb as usize]);
        }
    }
    Ok(vector)
}

fn shared(alloc: Global, entries: [u64; 3]) -> Result<Arc<Vector>, Memory> {
    Ok(Arc::new(alloc, vector(alloc, entries)?)?)
}

fn numbers(alloc: Global, of: &[u32]) -> Result<Numbers, Memory> {
    let mut numbers = Numbers::new(alloc);
    for number in of {
        numbers.push(*number)?;
    }
    Ok(numbers)
}

fn bytes(alloc: Global, text: &str) -> Result<ListOf<u8>, Memory> {
    Ok(ListOf::from_vec(Vec::from_slice(alloc, text.as_bytes())?))
}

/// What happened, and the texts of its answers.
fn done(alloc: Global, events: Events, answers: AnswerList) -> Done {
    Done {
        events,
        answers,
        ends: EndList::new(alloc),
    }
}

/// The lines of the report in front of the one that ends it.
fn lines_of(alloc: Global, done: &Done) -> Result<String, Memory> {
    let script = script(alloc)?;
    if script.vbuckets == 0 || script.vbuckets > 1024 {
        return Err(Memory);
    }
    let text = report(alloc, &script, done)?;
    let text = String::from_utf8_lossy(alloc, &text)?;
    match text.as_str().split_once(END) {
        Some((lines, _)) => Ok(String::from_str(alloc, lines)?),
        None => Err(Memory),
    }
}

/// The line of an event that is no answer.
fn line_of(alloc: Global, event: Event) -> Result<String, Memory> {
    let mut events = Events::new(alloc);
    events.push(Happened::new(event))?;
    lines_of(alloc, &done(alloc, events, AnswerList::new(alloc)))
}

fn is_line(rt: &impl Abort, alloc: Global, event: Event, want: &str) -> Result<(), Fail> {
    let found = line_of(alloc, event)?;
    assert_eq!(rt; found.as_str().trim_end(), want);
    Ok(())
}

#[test]
fn commands_and_publications(rt: HostRuntime) -> Result<(), Fail> {
    let alloc = rt.alloc();
    let indexes = numbers(alloc, &[2, 0])?;
    is_line(
        &rt,
        alloc,
        Event::Build {
            c: 0,
            k: 3,
            indexes,
        },
        r#"{"c":0,"e":"build","indexes":[2,0],"k":3}"#,
    )?;
    let indexes = numbers(alloc, &[0])?;
    is_line(
        &rt,
        alloc,
        Event::Online {
            c: 0,
            k: 1,
            indexes,
        },
        r#"{"c":0,"e":"online","indexes":[0],"k":1}"#,
    )?;
    is_line(
        &rt,
        alloc,
        Event::Removed { c: 1, k: 0, i: 0 },
        r#"{"c":1,"e":"drop","i":0,"k":0}"#,
    )?;
    let at = shared(alloc, [0, 7, 12])?;
    is_line(
        &rt,
        alloc,
        Event::Publish { i: 15, at },
        r#"{"e":"publish","i":15,"v":{"1":7,"2":12}}"#,
    )
}

#[test]
fn a_mutation(rt: HostRuntime) -> Result<(), Fail> {
    let alloc = rt.alloc();
    let mut store = VbStore::new(alloc, 3)?;
    let what = store.append(Text::of(alloc, "a")?, None)?;
    let found = line_of(alloc, Event::Mutate { c: 0, k: 0, what })?;
    assert!(rt;
        found
            .as_str()
            .starts_with(r#"{"c":0,"e":"mutate","k":0,"seq":1,"vb":"#)
    );
    Ok(())
}

fn definition(alloc: Global) -> Result<Arc<IndexDef>, Memory> {
    let def = IndexDef {
        name: Text::of(alloc, "ix")?,
        keys: Keys::new(alloc),
        filter: ListOf::new(alloc),
        primary: false,
    };
    Ok(Arc::new(alloc, def)?)
}

#[test]
fn definitions(rt: HostRuntime) -> Result<(), Fail> {
    let alloc = rt.alloc();
    for (deferred, want) in [
        (
            false,
            r#"{"c":0,"e":"define","i":1,"k":2,"state":"building"}"#,
        ),
        (
            true,
            r#"{"c":0,"e":"define","i":1,"k":2,"state":"deferred"}"#,
        ),
    ] {
        let def = definition(alloc)?;
        is_line(
            &rt,
            alloc,
            Event::Define {
                c: 0,
                k: 2,
                i: 1,
                deferred,
                def,
            },
            want,
        )?;
    }
    Ok(())
}

#[test]
fn refusals(rt: HostRuntime) -> Result<(), Fail> {
    let alloc = rt.alloc();
    let rows = [
        (
            1,
            Why::At(26),
            r#"{"at":26,"c":0,"code":1,"e":"refuse","k":0,"what":"parse"}"#,
        ),
        (
            2,
            Why::Plain,
            r#"{"c":0,"code":2,"e":"refuse","k":0,"what":"keyspace"}"#,
        ),
        (
            3,
            Why::Because(Reason::TooManyKeys),
            r#"{"c":0,"code":3,"e":"refuse","k":0,"reason":"too_many_keys","what":"bad_definition"}"#,
        ),
        (
            3,
            Why::Because(Reason::TwoArrays),
            r#"{"c":0,"code":3,"e":"refuse","k":0,"reason":"two_arrays","what":"bad_definition"}"#,
        ),
        (
            3,
            Why::Because(Reason::ConstantKey),
            r#"{"c":0,"code":3,"e":"refuse","k":0,"reason":"constant_key","what":"bad_definition"}"#,
        ),
        (
            3,
            Why::Because(Reason::MetaAlias),
            r#"{"c":0,"code":3,"e":"refuse","k":0,"reason":"meta_alias","what":"bad_definition"}"#,
        ),
        (
            3,
            Why::Because(Reason::With),
            r#"{"c":0,"code":3,"e":"refuse","k":0,"reason":"with","what":"bad_definition"}"#,
        ),
        (
            4,
            Why::Plain,
            r#"{"c":0,"code":4,"e":"refuse","k":0,"what":"exists"}"#,
        ),
        (
            5,
            Why::Plain,
            r#"{"c":0,"code":5,"e":"refuse","k":0,"what":"unknown_index"}"#,
        ),
        (
            6,
            Why::Plain,
            r#"{"c":0,"code":6,"e":"refuse","k":0,"what":"not_deferred"}"#,
        ),
        (
            7,
            Why::Plain,
            r#"{"c":0,"code":7,"e":"refuse","k":0,"what":"too_many_indexes"}"#,
        ),
        (
            8,
            Why::Plain,
            r#"{"c":0,"code":8,"e":"refuse","k":0,"what":"not_online"}"#,
        ),
        (
            9,
            Why::Plain,
            r#"{"c":0,"code":9,"e":"refuse","k":0,"what":"no_index"}"#,
        ),
        (
            10,
            Why::Plain,
            r#"{"c":0,"code":10,"e":"refuse","k":0,"what":"dropped"}"#,
        ),
    ];
    for (code, why, want) in rows {
        is_line(
            &rt,
            alloc,
            Event::Refuse {
                c: 0,
                k: 0,
                code,
                why,
            },
            want,
        )?;
    }
    Ok(())
}

/// The lines of a request with this demand that ends with an event.
fn request(
    alloc: Global,
    demand: [u64; 3],
    end: Event,
    text: Option<&str>,
) -> Result<String, Memory> {
    let mut events = Events::new(alloc);
    events.push(Happened::new(Event::Start {
        c: 0,
        k: 4,
        i: 1,
        demand: vector(alloc, demand)?,
    }))?;
    events.push(Happened::new(end))?;
    let mut answers = AnswerList::new(alloc);
    answers.push(Answered {
        c: 0,
        k: 4,
        text: match text {
            Some(text) => Some(bytes(alloc, text)?),
            None => None,
        },
    })?;
    lines_of(alloc, &done(alloc, events, answers))
}

fn ends_in(rt: &impl Abort, found: &String, want: &str) {
    assert!(rt;
        found.as_str().trim_end().ends_with(want),
        "{}",
        found.as_str()
    );
}

#[test]
fn answers(rt: HostRuntime) -> Result<(), Fail> {
    let alloc = rt.alloc();
    let at = shared(alloc, [2, 0, 0])?;
    let found = request(
        alloc,
        [1, 0, 0],
        Event::Answer { c: 0, k: 4, at },
        Some("[]"),
    )?;
    assert_eq!(rt;
        found.as_str().trim_end(),
        "{\"c\":0,\"d\":{\"0\":1},\"e\":\"start\",\"i\":1,\"k\":4}\n{\"c\":0,\"e\":\"answer\",\"k\":4,\"rows\":[],\"v\":{\"0\":2}}"
    );
    let at = shared(alloc, [2, 0, 0])?;
    let found = request(alloc, [0, 0, 0], Event::Answer { c: 0, k: 4, at }, None)?;
    ends_in(
        &rt,
        &found,
        r#"{"c":0,"code":12,"e":"answer","k":4,"v":{"0":2},"what":"answer_too_large"}"#,
    );
    Ok(())
}

fn fetched(alloc: Global) -> Result<Event, Memory> {
    Ok(Event::Fetch {
        c: 0,
        k: 4,
        at: shared(alloc, [0, 1, 0])?,
        fetched: vector(alloc, [0, 2, 0])?,
    })
}

#[test]
fn picks_and_fetches(rt: HostRuntime) -> Result<(), Fail> {
    let alloc = rt.alloc();
    let at = shared(alloc, [0, 0, 0])?;
    is_line(
        &rt,
        alloc,
        Event::Pick { c: 0, k: 2, at },
        r#"{"c":0,"e":"pick","k":2,"v":{}}"#,
    )?;
    let found = request(alloc, [0, 0, 0], fetched(alloc)?, Some("[1]"))?;
    ends_in(
        &rt,
        &found,
        r#"{"c":0,"e":"fetch","f":{"1":2},"k":4,"rows":[1],"v":{"1":1}}"#,
    );
    let found = request(alloc, [0, 0, 0], fetched(alloc)?, None)?;
    ends_in(
        &rt,
        &found,
        r#"{"c":0,"code":12,"e":"fetch","f":{"1":2},"k":4,"v":{"1":1},"what":"answer_too_large"}"#,
    );
    Ok(())
}

// Two vBuckets are short, the first is told.
#[test]
fn not_yet(rt: HostRuntime) -> Result<(), Fail> {
    let alloc = rt.alloc();
    let have = shared(alloc, [5, 1, 0])?;
    let found = request(alloc, [5, 3, 9], Event::NotYet { c: 0, k: 4, have }, None)?;
    ends_in(
        &rt,
        &found,
        r#"{"c":0,"code":11,"e":"not_yet","have":1,"k":4,"v":{"0":5,"1":1},"vb":1,"want":3}"#,
    );
    Ok(())
}

// The name of the index needs an escape.
#[test]
fn the_end(rt: HostRuntime) -> Result<(), Fail> {
    let alloc = rt.alloc();
    let script = script(alloc)?;
    let mut outcome = done(alloc, Events::new(alloc), AnswerList::new(alloc));
    outcome.ends.push(End {
        i: 3,
        name: Text::of(alloc, "i\"x")?,
        state: State::Deferred,
        vector: vector(alloc, [0, 0, 4])?,
        rows: 12,
    })?;
    if script.vbuckets == 0 || script.vbuckets > 1024 {
        return Err(Memory)?;
    }
    let text = report(alloc, &script, &outcome)?;
    let text = String::from_utf8_lossy(alloc, &text)?;
    assert_eq!(rt;
        text.as_str(),
        "{\"e\":\"end\",\"events\":0,\"high\":{},\"indexes\":[{\"i\":3,\"name\":\"i\\\"x\",\"rows\":12,\"state\":\"deferred\",\"v\":{\"2\":4}}]}\n"
    );
    Ok(())
}
