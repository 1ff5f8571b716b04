ghost use Rattle.std.specs.Prelude.{◌≡◌, ◌++◌, ℕ, List, Option, drop, [], OnOk};
ghost use Rattle.std.specs.Option.{option_copied, option_map_or};
ghost use Rattle.seq_vector.specs.Vectors.{entry, first_short};
ghost use Rattle.scan_history.specs.Happened.{event_of};
ghost use Rattle.scan_history.specs.declared.why.Why.TheVariants as why;
ghost use Rattle.script_text.specs.Lines.{line_of};
ghost use Rattle.script_text.specs.Reports.{state_name, least_short, answer_members, fetch_members, not_yet_members, refusal_members, event_members, event_lines, first_text, answers_taken, demands_after, demand_of, no_demands};
ghost use Rattle.index_def.specs.LiveIndexes.{state_at_creation};
ghost use Rattle.script_text.specs.inner.Demands.{demand_in};

use crate::reporting::demands::{demand_in, note};
use crate::reporting::line::put_line;
use crate::reporting::member::ReportValue::{Entries, Json, Number, Numbers, Word};
use crate::reporting::names::{reason_name, refusal_name, state_name};
use index_def::Reason;
use n1ql_value::{Memory, State};
use scan_history::{AnswerList, Event, Happened, Why};
use seq_vector::Vector;
use seq_vector::laws::tests_tell_of_each_vbucket;

/// Appends a line for each event. The answers give the rows, in order.
pub(crate) fn event_lines(
    out: &mut Vec<u8>,
    events: &[Happened],
    answers: &AnswerList,
) -> Result<(), Memory>
    ensures { OnOk result (out.new.items ≡ out.old.items ++ event_lines no_demands events.now answers.now) }
{
    let mut demands = Vec::new(*out.allocator());
    let mut answered = 0;
    for happened in events {
        let event = happened.event();
        put_event(
            out,
            event,
            rows_at(answers, answered),
            demand_of(&demands, event),
        )?;
        note_event(&mut demands, event)?;
        answered += answers_taken(event);
    }
    Ok(())
}

/// The rows of the answer at a place from 0, as JSON; None where their text is too large. Past the last it is `null`.
fn rows_at(answers: &AnswerList, at: usize) -> Option<&[u8]>
    ensures { option_copied result ≡ first_text (drop at answers.now) }
{
    match answers.get(at) {
        Some(answered) => match &answered.text {
            Some(text) => Some(text.as_slice()),
            None => None,
        },
        None => Some(b"null"),
    }
}

/// How many of the answers an event takes.
fn answers_taken(event: &Event) -> usize
    ensures { result ≡ answers_taken (event_of event.now) }
{
    match event {
        Event::Answer { .. } => 1,
        Event::Fetch { .. } => 1,
        _ => 0,
    }
}

/// What the request that an event is a part of has to cover, None where there is none.
fn demand_of<'a>(demands: &'a [Option<Vector>], event: &Event) -> Option<&'a Vector>
    ensures { option_map_or (λ demand. demand) (option_copied result) [] ≡ demand_of (demand_in demands.now) (event_of event.now) }
{
    match event {
        Event::NotYet { c, .. } => demand_in(demands, *c),
        _ => None,
    }
}

/// Keeps what a request has to cover.
fn note_event(demands: &mut Vec<Option<Vector>>, event: &Event) -> Result<(), Memory>
    ensures { (d : ℕ) → OnOk result (demand_in demands.new.items d ≡ demands_after (demand_in demands.old.items) (event_of event.now) d) }
{
    match event {
        Event::Start { c, demand, .. } => note(demands, *c, demand),
        _ => Ok(()),
    }
}

/// Appends the line of an event, with the text of its rows if it is an answer, and with what its request has to cover if it has none yet.
fn put_event(
    out: &mut Vec<u8>,
    event: &Event,
    rows: Option<&[u8]>,
    demand: Option<&Vector>,
) -> Result<(), Memory>
    ensures { OnOk result (out.new.items ≡ out.old.items
        ++ line_of (event_members (record { rows = option_copied rows.entry; demand = option_map_or (λ demand. demand) (option_copied demand.entry) [] }) (event_of event.now))) }
{
    match event {
        Event::Mutate { c, k, what } => put_line(
            out,
            &[
                ("c", Number(*c as u64)),
                ("e", Word("mutate")),
                ("k", Number(*k as u64)),
                ("seq", Number(what.seqno)),
                ("vb", Number(what.vb as u64)),
            ],
        ),
        Event::Define {
            c,
            k,
            i,
            deferred,
            ..
        } => put_line(
            out,
            &[
                ("c", Number(*c as u64)),
                ("e", Word("define")),
                ("i", Number(*i as u64)),
                ("k", Number(*k as u64)),
                ("state", Word(state_at_creation(*deferred))),
            ],
        ),
        Event::Build { c, k, indexes } => put_line(
            out,
            &[
                ("c", Number(*c as u64)),
                ("e", Word("build")),
                ("indexes", Numbers(indexes)),
                ("k", Number(*k as u64)),
            ],
        ),
        Event::Online { c, k, indexes } => put_line(
            out,
            &[
                ("c", Number(*c as u64)),
                ("e", Word("online")),
                ("indexes", Numbers(indexes)),
                ("k", Number(*k as u64)),
            ],
        ),
        Event::Publish { i, at } => put_line(
            out,
            &[
                ("e", Word("publish")),
                ("i", Number(*i as u64)),
                ("v", Entries(at)),
            ],
        ),
        Event::Removed { c, k, i } => put_line(
            out,
            &[
                ("c", Number(*c as u64)),
                ("e", Word("drop")),
                ("i", Number(*i as u64)),
                ("k", Number(*k as u64)),
            ],
        ),
        Event::Start { c, k, i, demand } => put_line(
            out,
            &[
                ("c", Number(*c as u64)),
                ("d", Entries(demand)),
                ("e", Word("start")),
                ("i", Number(*i as u64)),
                ("k", Number(*k as u64)),
            ],
        ),
        Event::Answer { c, k, at } => put_answer(out, *c, *k, at, rows),
        Event::Pick { c, k, at } => put_line(
            out,
            &[
                ("c", Number(*c as u64)),
                ("e", Word("pick")),
                ("k", Number(*k as u64)),
                ("v", Entries(at)),
            ],
        ),
        Event::Fetch { c, k, at, fetched } => put_fetch(out, *c, *k, at, fetched, rows),
        Event::NotYet { c, k, have } => put_not_yet(out, *c, *k, have, demand),
        Event::Refuse { c, k, code, why } => put_refusal(out, *c, *k, *code, *why),
    }
}

/// The name of the state of an index that was just created.
fn state_at_creation(deferred: bool) -> &'static str
    ensures { result.now ≡ state_name (state_at_creation deferred) }
{
    if deferred {
        state_name(State::Deferred)
    } else {
        state_name(State::Building)
    }
}

fn put_answer<'a>(
    out: &mut Vec<u8>,
    c: u32,
    k: u32,
    at: &'a Vector,
    rows: Option<&'a [u8]>,
) -> Result<(), Memory>
    ensures { OnOk result (out.new.items ≡ out.old.items ++ line_of (answer_members (option_copied rows.entry) c k at.now)) }
{
    match rows {
        Some(rows) => put_line(
            out,
            &[
                ("c", Number(c as u64)),
                ("e", Word("answer")),
                ("k", Number(k as u64)),
                ("rows", Json(rows)),
                ("v", Entries(at)),
            ],
        ),
        None => put_line(
            out,
            &[
                ("c", Number(c as u64)),
                ("code", Number(12)),
                ("e", Word("answer")),
                ("k", Number(k as u64)),
                ("v", Entries(at)),
                ("what", Word("answer_too_large")),
            ],
        ),
    }
}

fn put_fetch<'a>(
    out: &mut Vec<u8>,
    c: u32,
    k: u32,
    at: &'a Vector,
    fetched: &'a Vector,
    rows: Option<&'a [u8]>,
) -> Result<(), Memory>
    ensures { OnOk result (out.new.items ≡ out.old.items ++ line_of (fetch_members (option_copied rows.entry) c k at.now fetched.now)) }
{
    match rows {
        Some(rows) => put_line(
            out,
            &[
                ("c", Number(c as u64)),
                ("e", Word("fetch")),
                ("f", Entries(fetched)),
                ("k", Number(k as u64)),
                ("rows", Json(rows)),
                ("v", Entries(at)),
            ],
        ),
        None => put_line(
            out,
            &[
                ("c", Number(c as u64)),
                ("code", Number(12)),
                ("e", Word("fetch")),
                ("f", Entries(fetched)),
                ("k", Number(k as u64)),
                ("v", Entries(at)),
                ("what", Word("answer_too_large")),
            ],
        ),
    }
}

fn put_not_yet(
    out: &mut Vec<u8>,
    c: u32,
    k: u32,
    have: &Vector,
    demand: Option<&Vector>,
) -> Result<(), Memory>
    ensures { OnOk result (out.new.items ≡ out.old.items
        ++ line_of (not_yet_members (option_map_or (λ demand. demand) (option_copied demand.entry) []) c k have.now)) }
{
    let vb = least_short(have, demand);
    let want = wanted(demand, vb);
    put_line(
        out,
        &[
            ("c", Number(c as u64)),
            ("code", Number(11)),
            ("e", Word("not_yet")),
            ("have", Number(entry(have, vb))),
            ("k", Number(k as u64)),
            ("v", Entries(have)),
            ("vb", Number(vb as u64)),
            ("want", Number(want)),
        ],
    )
}

/// The least vBucket at which a vector is short of a demand, 0 where there is none.
fn least_short(have: &Vector, demand: Option<&Vector>) -> u32
    ensures { result ≡ least_short (option_map_or (λ demand. demand) (option_copied demand.entry) []) have.now }
{
    match demand {
        Some(demand) => first_short(have, demand).unwrap_or(0),
        None => 0,
    }
}

/// The entry of a demand, 0 where there is none.
fn wanted(demand: Option<&Vector>, vb: u32) -> u64
    ensures { result ≡ entry (option_map_or (λ demand. demand) (option_copied demand.entry) []) vb }
{
    match demand {
        Some(demand) => entry(demand, vb),
        None => 0,
    }
}

/// That vBucket, where there is one. The vectors may differ in their sizes.
fn first_short(have: &Vector, want: &Vector) -> Option<u32>
    ensures { result ≡ first_short have.now want.now }
{
    tests_tell_of_each_vbucket();
    for vb in 0..want.len() {
        if entry(have, vb) < want.get(vb) {
            return Some(vb);
        }
    }
    None
}

/// The entry of a vector, 0 past its last.
fn entry(vector: &Vector, vb: u32) -> u64
    ensures { result ≡ entry vector.now vb }
{
    if vb < vector.len() { vector.get(vb) } else { 0 }
}

fn put_refusal(out: &mut Vec<u8>, c: u32, k: u32, code: u8, why: Why) -> Result<(), Memory>
    ensures { OnOk result (out.new.items ≡ out.old.items ++ line_of (refusal_members c k code why)) }
{
    match why {
        Why::Plain => put_line(
            out,
            &[
                ("c", Number(c as u64)),
                ("code", Number(code as u64)),
                ("e", Word("refuse")),
                ("k", Number(k as u64)),
                ("what", Word(refusal_name(code))),
            ],
        ),
        Why::At(at) => put_line(
            out,
            &[
                ("at", Number(at as u64)),
                ("c", Number(c as u64)),
                ("code", Number(code as u64)),
                ("e", Word("refuse")),
                ("k", Number(k as u64)),
                ("what", Word(refusal_name(code))),
            ],
        ),
        Why::Because(reason) => put_bad_definition(out, c, k, code, reason),
    }
}

fn put_bad_definition(
    out: &mut Vec<u8>,
    c: u32,
    k: u32,
    code: u8,
    reason: Reason,
) -> Result<(), Memory>
    ensures { OnOk result (out.new.items ≡ out.old.items ++ line_of (refusal_members c k code (why.Because reason))) }
{
    put_line(
        out,
        &[
            ("c", Number(c as u64)),
            ("code", Number(code as u64)),
            ("e", Word("refuse")),
            ("k", Number(k as u64)),
            ("reason", Word(reason_name(reason))),
            ("what", Word(refusal_name(code))),
        ],
    )
}
