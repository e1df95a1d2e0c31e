// The fields of a head by their names.
ghost use Rattle.std.specs.Prelude.{◌≡◌, ◌≤◌, length, map, All, IfOk, OnErr, OnOk, IfSome, IfNone, MatchOption};
ghost use Rattle.std.specs.Str.Parse.{digits_value};
ghost use Rattle.httparse.specs.Spans.{header_bytes, IsHeaderWithin, IsWithin};
ghost use Rattle.oe_http.specs.Fields.{values_of, is_coded, is_coding, IsLengthText};
ghost use Rattle.oe_http.specs.Found.{found_values};

use httparse::spans::{HeaderSpan, Span};

/// Most digits of a length.
const MOST_DIGITS: usize = 19;

/// A name stands in two fields.
#[derive(Clone, Copy)]
pub(crate) struct Twice;

/// The value of the only field of this name, if there is one.
///
/// Refuses: where two fields have the name.
pub(crate) fn only_value(
    head: &[u8],
    fields: &[HeaderSpan],
    name: &[u8],
) -> Result<Option<Span>, Twice>
    requires { All (IsHeaderWithin (length head.now)) fields.now }
    ensures found { let values = values_of name.now (map (header_bytes head.now) fields.now) in
        IfOk result (λ found. values ≡ found_values head.now found) }
    ensures within { IfOk result (λ found. IfSome found (IsWithin (length head.now))) }
    ensures twice { let values = values_of name.now (map (header_bytes head.now) fields.now) in
        OnErr result (2 ≤ length values) }
{
    let mut found: Option<Span> = None;
    for field in fields {
        if field.name.of(head).eq_ignore_ascii_case(name) {
            if found.is_some() {
                return Err(Twice);
            }
            found = Some(field.value);
        }
    }
    Ok(found)
}

/// Whether a field codes the body.
pub(crate) fn is_coded(head: &[u8], fields: &[HeaderSpan]) -> bool
    requires { All (IsHeaderWithin (length head.now)) fields.now }
    ensures { result ≡ is_coded (map (header_bytes head.now) fields.now) }
{
    for field in fields {
        if is_coding(field.name.of(head), field.value.of(head)) {
            return true;
        }
    }
    false
}

/// Whether a field of this name and value codes the body.
fn is_coding(name: &[u8], value: &[u8]) -> bool
    ensures { result ≡ is_coding (name.now, value.now) }
{
    name.eq_ignore_ascii_case(b"transfer-encoding")
        || name.eq_ignore_ascii_case(b"content-encoding") && value != b"identity".as_slice()
}

/// The length that 1 to 19 digits write.
pub(crate) fn length_of(value: &[u8]) -> Option<u64>
    ensures some { IfSome result
        (λ n. IsLengthText value.now × (n ≡ digits_value 10 value.now)) }
    ensures none { IfNone result (¬ (IsLengthText value.now)) }
{
    if value.is_empty() || value.len() > MOST_DIGITS || !value.iter().all(|b| b.is_ascii_digit()) {
        return None;
    }
    let mut length = 0;
    for digit in value {
        length = length * 10 + u64::from(*digit - b'0');
    }
    Some(length)
}
