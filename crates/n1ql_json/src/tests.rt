use super::*;
use n1ql_value::{Vals, Value};
use std::alloc::{AllocError, Global};
use std::test::Fail;

fn nested(alloc: Global, depth: usize) -> Result<Vec<u8>, AllocError> {
    let mut text = vec![in alloc; b'['; depth]?;
    for _ in 0..depth {
        text.push(b']')?;
    }
    Ok(text)
}

// What becomes of a text: its compact text, or the fault's name.
fn outcome(alloc: Global, answer: Result<Value, JsonFault>) -> Result<String, AllocError> {
    match answer {
        Ok(value) => {
            let mut out = Vec::new(alloc);
            if write(&value, &mut out).is_err() {
                return Err(AllocError);
            }
            Ok(String::from_utf8_lossy(alloc, &out)?)
        }
        Err(fault) => format!(in alloc; "{fault:?}"),
    }
}

#[test]
fn texts_and_their_outcomes(rt: HostRuntime) -> Result<(), Fail> {
    let alloc = rt.alloc();
    let cases: [(&[u8], &str); 26] = [
        (b"null", "null"),
        (b" [ 1 , -2, true ] ", "[1,-2,true]"),
        (b"9223372036854775807", "9223372036854775807"),
        (b"-9223372036854775808", "-9223372036854775808"),
        (
            br#"{"b":1,"a":{"z":[],"y":"\u00e9\ud83d\ude00\n"}}"#,
            "{\"a\":{\"y\":\"\u{e9}\u{1f600}\\n\",\"z\":[]},\"b\":1}",
        ),
        (br#"{"a":1.5,"a":2}"#, r#"{"a":2}"#),
        (br#"{"a":1,"a":2.5}"#, "Number"),
        (b"-0", "Number"),
        (b"1.0", "Number"),
        (b"1e2", "Number"),
        (b"1e-999", "Number"),
        (b"[9223372036854775808]", "Number"),
        (br#"{"a":-9223372036854775809}"#, "Number"),
        (b"1e999", "Syntax"),
        (b"[1.5", "Syntax"),
        (b"", "Syntax"),
        (b"01", "Syntax"),
        (b"1 2", "Syntax"),
        (b"[1,]", "Syntax"),
        (b"nul", "Syntax"),
        (br#""\ud800""#, "Syntax"),
        (b"\"\x01\"", "Syntax"),
        (b"\"\xff\"", "Syntax"),
        (b"\xef\xbb\xbf1", "Syntax"),
        (b"MISSING", "Syntax"),
        (b"\"/\\u002f\"", "\"//\""),
    ];
    let mut reader = JsonReader::new(alloc);
    for (text, want) in cases {
        assert_eq!(rt; outcome(alloc, read(alloc, text))?.as_str(), want);
        assert_eq!(rt; outcome(alloc, reader.read(text))?.as_str(), want);
    }
    Ok(())
}

#[test]
fn nesting_and_missing(rt: HostRuntime) -> Result<(), Fail> {
    let alloc = rt.alloc();
    let mut reader = JsonReader::new(alloc);
    assert!(rt; read(alloc, &nested(alloc, 127)?).is_ok());
    assert!(rt; reader.read(&nested(alloc, 127)?).is_ok());
    let deeper = nested(alloc, 128)?;
    assert_eq!(rt; outcome(alloc, read(alloc, &deeper))?.as_str(), "Syntax");
    assert_eq!(rt; outcome(alloc, reader.read(&deeper))?.as_str(), "Syntax");
    let tree = serde_json::Value::Bool(true);
    assert!(rt; matches!(value_from(alloc, tree), Ok(Value::Bool(true))));
    let mut items = Vals::new(alloc);
    items.push(Value::Missing)?;
    items.push(Value::Int(7))?;
    let mut out = vec![in alloc; b'>']?;
    write(&Value::Array(items), &mut out)?;
    assert_eq!(rt; out.as_slice(), b">[null,7]".as_slice());
    Ok(())
}
