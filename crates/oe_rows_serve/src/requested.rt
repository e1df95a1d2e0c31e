// Requests, from a line.
use http::Method;
use oe_dims::Text;
use oe_http::Request;
use oe_lines::{Answers, Fault, first_word};
use serde_json::Value;
use std::alloc::Global;

/// The request of a line: `METHOD TARGET [AUTHORIZATION,BODY,COUNT]`.
pub(crate) fn request_of(alloc: Global, line: &str) -> Result<Request, Fault> {
    let (method, line) = first_word(line);
    let (target, texts) = first_word(line);
    let Ok(texts) = Value::from_str(alloc, texts) else {
        return Err(Fault::Line);
    };
    request_to(alloc, method, target, &texts)
}

fn request_to(alloc: Global, method: &str, target: &str, texts: &Value) -> Result<Request, Fault> {
    let (path, query) = target.split_once('?').unwrap_or((target, ""));
    Ok(Request {
        method: method_of(alloc, method)?,
        path: Text::of(alloc, path)?,
        query: Text::of(alloc, query)?,
        authorization: authorization_of(alloc, texts)?,
        body: body_of(alloc, texts)?,
    })
}

fn method_of(alloc: Global, word: &str) -> Result<Method, Fault> {
    match Method::from_bytes(alloc, word.as_bytes()) {
        Ok(method) => Ok(method),
        Err(_) => Err(Fault::Line),
    }
}

fn authorization_of(alloc: Global, texts: &Value) -> Result<Option<Text>, Fault> {
    match texts.get(0usize) {
        Some(Value::String(text)) => Ok(Some(Text::of(alloc, text.as_str())?)),
        _ => Ok(None),
    }
}

/// The body, with as many letters `a` as are counted in place of each `~`.
fn body_of(alloc: Global, texts: &Value) -> Result<Vec<u8>, Fault> {
    let mut body = Answers::new(alloc);
    if let Some(Value::String(text)) = texts.get(1usize) {
        fill(text.as_bytes(), count_of(texts), &mut body);
    }
    body.into_bytes()
}

/// How many letters stand in place of each `~`.
fn count_of(texts: &Value) -> u64 {
    match texts.get(2usize) {
        Some(count) => count.as_u64().unwrap_or(0),
        None => 0,
    }
}

fn fill(bytes: &[u8], count: u64, body: &mut Answers) {
    for byte in bytes {
        if *byte == b'~' {
            push_letters(count, body);
        } else {
            body.extend(&[*byte]);
        }
    }
}

fn push_letters(count: u64, body: &mut Answers) {
    for _ in 0..count {
        body.extend(b"a");
    }
}
