// Names of bands, collections and nodes.
ghost use Rattle.std.specs.Prelude.{◌≡◌};
ghost use Rattle.std.specs.List.{list_all};
ghost use Rattle.oe_dims.specs.Names as spec;

/// Whether the text is a valid name: 1 to 64 bytes of letters, digits, `_`, `-` and `.`.
pub fn is_name(name: &str) -> bool
    ensures { result ≡ spec.is_name name.now }
{
    let bytes = name.as_bytes();
    !bytes.is_empty() && bytes.len() <= 64 && all_name_bytes(bytes)
}

/// Every byte is a letter, a digit, `_`, `-` or `.`.
fn all_name_bytes(bytes: &[u8]) -> bool
    ensures { result ≡ list_all spec.is_name_byte bytes.now }
{
    bytes.iter().all(|byte| is_name_byte(*byte))
}

/// A letter, a digit, `_`, `-` or `.`.
fn is_name_byte(byte: u8) -> bool
    ensures { result ≡ spec.is_name_byte byte }
{
    byte.is_ascii_alphanumeric() || byte == b'_' || byte == b'-' || byte == b'.'
}
