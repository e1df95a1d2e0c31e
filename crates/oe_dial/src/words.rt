// The words of a call.
ghost use Rattle.std.specs.Prelude.{◌≡◌, ◌↔◌, ◌≤◌, ◌∷◌, ℕ, IfNone, IfSome, IsTrue, codes, decimal};
ghost use Rattle.std.specs.List.{list_all};
ghost use Rattle.std.specs.Option.{option_map};
ghost use Rattle.oe_client.specs.Commands as commands;
ghost use Rattle.oe_http.specs.Again.{is_visible as visible};
ghost use Rattle.oe_dial.specs.Words as spec;
ghost use Rattle.oe_dial.specs.Words.{PlainCall, SpellsCall};

use itoa::Buffer;
use oe_client::{VerbEntry, find_verb, is_argument_of};
use oe_dims::Text;

/// The most bytes of the name of a host.
const MOST_HOST: usize = 253;

/// The most bytes of a token.
const MOST_TOKEN: usize = 128;

/// A call: of which host and port, with which token, by which verb, with which argument.
#[derive(Clone, Copy)]
pub struct ClientCall<'a> {
    pub host: &'a Text,
    /// 1 to 65535.
    pub port: u16,
    pub token: Option<&'a Text>,
    pub verb: &'a VerbEntry,
    pub argument: Option<&'a Text>,
}

/// The call that the words `client HOST PORT TOKEN VERB [ARG]` spell, `None` exactly where they spell none. HOST is 1 to
/// 253 letters, digits, `.`, `-` and `:`; PORT a number from 1 to 65535; TOKEN 1 to 128 visible bytes of ASCII, `-` for
/// none; VERB one of the verbs, and ARG what it takes.
pub fn read_call<'a>(words: &'a [Text]) -> Option<ClientCall<'a>>
    ensures some { IfSome result (λ call. SpellsCall words.now (spec.plain_call call)) }
    ensures none { IfNone result ((call : PlainCall) → ¬ SpellsCall words.now call) }
{
    match words {
        [word, host, port, token, verb] => call_of(word, host, port, token, verb, None),
        [word, host, port, token, verb, argument] => {
            call_of(word, host, port, token, verb, Some(argument))
        }
        _ => None,
    }
}

/// The word of the command.
fn is_client(word: &Text) -> bool
    ensures { IsTrue result ↔ word.now ≡ codes "client" }
{
    word.as_str() == "client"
}

/// The call of these words, `None` exactly where they spell none.
fn call_of<'a>(
    word: &Text,
    host: &'a Text,
    port: &Text,
    token: &'a Text,
    verb: &Text,
    argument: Option<&'a Text>,
) -> Option<ClientCall<'a>>
    ensures some { IfSome result (λ call. SpellsCall (word.now ∷ host.now ∷ port.now
        ∷ token.now ∷ verb.now ∷ spec.argument_words (option_map (λ t. t.now) argument.entry))
        (spec.plain_call call)) }
    ensures none { IfNone result ((call : PlainCall) → ¬ SpellsCall (word.now ∷ host.now
        ∷ port.now ∷ token.now ∷ verb.now
        ∷ spec.argument_words (option_map (λ t. t.now) argument.entry)) call) }
{
    if !is_client(word) || !is_host_name(host.as_str()) || !is_token(token.as_str()) {
        return None;
    }
    let port = read_port(port.as_str())?;
    let entry = find_verb(verb.as_str())?;
    if !is_argument_of(entry.3, argument) {
        return None;
    }
    Some(ClientCall {
        host,
        port,
        token: token_of(token),
        verb: entry,
        argument,
    })
}

/// 1 to 253 letters, digits, `.`, `-` and `:`.
fn is_host_name(word: &str) -> bool
    ensures { result ≡ spec.is_host_name word.now }
{
    let bytes = word.as_bytes();
    !bytes.is_empty() && bytes.len() <= MOST_HOST && all_host_bytes(bytes)
}

fn all_host_bytes(bytes: &[u8]) -> bool
    ensures { result ≡ list_all spec.is_host_byte bytes.now }
{
    bytes.iter().all(|byte| is_host_byte(*byte))
}

/// A letter, a digit, `.`, `-` or `:`.
fn is_host_byte(byte: u8) -> bool
    ensures { result ≡ spec.is_host_byte byte }
{
    byte.is_ascii_alphanumeric() || byte == b'.' || byte == b'-' || byte == b':'
}

/// 1 to 128 visible bytes of ASCII.
fn is_token(word: &str) -> bool
    ensures { result ≡ commands.is_token word.now }
{
    let bytes = word.as_bytes();
    !bytes.is_empty() && bytes.len() <= MOST_TOKEN && all_visible(bytes)
}

fn all_visible(bytes: &[u8]) -> bool
    ensures { result ≡ list_all visible bytes.now }
{
    bytes.iter().all(|byte| is_visible(*byte))
}

fn is_visible(byte: u8) -> bool
    ensures { result ≡ visible byte }
{
    32 < byte && byte < 127
}

/// The token that a word says: `-` says none.
fn token_of<'a>(word: &'a Text) -> Option<&'a Text>
    ensures { option_map (λ t. t.now) result ≡ spec.token_of word.now }
{
    if word.as_str() == "-" {
        None
    } else {
        Some(word)
    }
}

/// The port that a word spells, `None` exactly where it spells none.
fn read_port(word: &str) -> Option<u16>
    ensures some { IfSome result (spec.IsPort word.now) }
    ensures none { IfNone result ((port : ℕ) → ¬ spec.IsPort word.now port) }
{
    match word.parse::<u16>() {
        Ok(port) => {
            if spells_port(word, port) {
                Some(port)
            } else {
                None
            }
        }
        Err(_) => None,
    }
}

fn spells_port(word: &str, port: u16) -> bool
    ensures { IsTrue result ↔ spec.IsPort word.now port }
{
    port != 0 && spells_number(word, port)
}

/// The word is the decimal spelling of the number.
fn spells_number(word: &str, port: u16) -> bool
    ensures { IsTrue result ↔ word.now ≡ decimal port }
{
    Buffer::new().format(port) == word
}
