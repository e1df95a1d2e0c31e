// The users of a service, and their tokens.
ghost use Rattle.std.specs.Prelude.{◌≡◌, IfOk};
ghost use Rattle.std.specs.List.{list_all, list_any};
ghost use Rattle.oe_dims.specs.Names.{is_byte_in};
ghost use Rattle.oe_routes.specs.Tokens as spec;

use oe_dims::{Text, bytes_behind, index_of_byte, text_of};
use oe_memory::OutOfMemory;
use std::alloc::Global;
use std::marker::Model;

/// Most users.
const MOST_USERS: usize = 8;

/// The users of a service, each with a token. Contracts see them as pairs.
#[derive(Drop)]
pub struct Tokens {
    entries: Vec<(Text, Text)>,
}

impl Model for Tokens {
    ghost use Rattle.std.specs.Prelude.{List};
    ghost use Rattle.oe_routes.specs.Tokens.{Entry};

    ghost Value = { List Entry };

    ghost view = { λ t. t.entries.items };
}

/// Why a file of tokens is not read.
#[derive(Clone, Copy, PartialEq, Eq)]
pub enum TokensFail {
    /// The number of the first bad line, from 1.
    Invalid(u32),
    OutOfMemory,
}

impl From<OutOfMemory> for TokensFail {
    ghost use Rattle.std.specs.Prelude.{◌≡◌};
    ghost use Rattle.oe_routes.specs.declared.tokens.TokensFail.TheVariants.{OutOfMemory as out_of_memory};

    ghost from_gives = { λ _ e. e ≡ out_of_memory };

    fn from(_error: OutOfMemory) -> TokensFail {
        TokensFail::OutOfMemory
    }
}

impl Tokens {
    /// The users of a file of tokens: at most 8 lines `USER TOKEN`, each with a line feed and one blank. A user has 1 to 64
    /// letters, digits and `_`, a token 1 to 128 bytes from 0x21 to 0x7E, and no two lines have one user or one token.
    ///
    /// Refuses: `Invalid` with the number of the first line that is none of these; out of memory.
    pub fn read(alloc: Global, bytes: &[u8]) -> Result<Tokens, TokensFail>
        ensures { spec.Reads (λ t. t) (spec.entries_in bytes.now) result }
    {
        match read_entries(alloc, bytes) {
            Ok(entries) => Ok(Tokens { entries }),
            Err(fail) => Err(fail),
        }
    }

    /// The pairs, in the order of their lines.
    pub fn entries(&self) -> &[(Text, Text)]
        ensures { result.now ≡ self.now }
    {
        &self.entries
    }
}

/// The entries of the lines.
#[tactic(auto, using(crate::proofs::TokenLemmas::no_more, crate::proofs::TokenLemmas::one_more, crate::proofs::TokenLemmas::cut_off, crate::proofs::TokenLemmas::may_be_few))]
fn read_entries(alloc: Global, bytes: &[u8]) -> Result<Vec<(Text, Text)>, TokensFail>
    ensures { spec.Reads (λ entries. entries.items) (spec.entries_in bytes.now) result }
{
    let mut entries = Vec::new(alloc);
    let mut rest = bytes;
    let mut number: u32 = 1;
    while !rest.is_empty() {
        let end = index_of_byte(rest, b'\n');
        if end == rest.len() {
            return Err(TokensFail::Invalid(number));
        }
        let (line, _) = rest.split_at(end);
        if !add_line(alloc, line, &mut entries)? {
            return Err(TokensFail::Invalid(number));
        }
        number += 1;
        rest = bytes_behind(rest, end);
    }
    Ok(entries)
}

/// Adds the entry of a line, where it may stand behind those before it. Answers whether it may.
#[tactic(auto, using(crate::proofs::TokenLemmas::user_is_utf8, crate::proofs::TokenLemmas::token_is_utf8))]
fn add_line(
    alloc: Global,
    line: &[u8],
    entries: &mut Vec<(Text, Text)>,
) -> Result<bool, OutOfMemory>
    ensures { IfOk result (λ added. spec.Adds line.now entries.old.items added entries.new.items) }
{
    let (user, token) = entry_in(line);
    if !may_follow(entries, user, token) {
        return Ok(false);
    }
    let user = text_of(alloc, user)?;
    entries.push((user, text_of(alloc, token)?))?;
    Ok(true)
}

/// What stands before and behind the first blank.
fn entry_in(line: &[u8]) -> (&[u8], &[u8])
    ensures { (result.0.now, result.1.now) ≡ spec.entry_in line.now }
{
    let end = index_of_byte(line, b' ');
    let (user, _) = line.split_at(end);
    (user, bytes_behind(line, end))
}

/// Whether an entry may stand behind those before it.
fn may_follow(before: &[(Text, Text)], user: &[u8], token: &[u8]) -> bool
    ensures { result ≡ spec.may_follow before.now (user.now, token.now) }
{
    is_id(user)
        && is_token(token)
        && before.len() < MOST_USERS
        && !has_user(before, user)
        && !has_token(before, token)
}

/// Whether bytes are the id of a user: 1 to 64 letters, digits and `_`.
pub(crate) fn is_id(text: &[u8]) -> bool
    ensures { result ≡ spec.is_id text.now }
{
    1 <= text.len() && text.len() <= 64 && are_id_bytes(text)
}

fn are_id_bytes(bytes: &[u8]) -> bool
    ensures { result ≡ list_all spec.is_id_byte bytes.now }
{
    bytes.iter().all(|byte| is_id_byte(*byte))
}

fn is_id_byte(byte: u8) -> bool
    ensures { result ≡ spec.is_id_byte byte }
{
    byte.is_ascii_uppercase() || byte.is_ascii_lowercase() || byte.is_ascii_digit() || byte == b'_'
}

/// Whether bytes are a token: 1 to 128 that are printed, and no blank.
fn is_token(token: &[u8]) -> bool
    ensures { result ≡ spec.is_token token.now }
{
    1 <= token.len() && token.len() <= 128 && are_printed(token)
}

/// Each byte is printed, and none is a blank.
fn are_printed(bytes: &[u8]) -> bool
    ensures { result ≡ list_all (is_byte_in 33 126) bytes.now }
{
    bytes.iter().all(|byte| is_printed(*byte))
}

fn is_printed(byte: u8) -> bool
    ensures { result ≡ is_byte_in 33 126 byte }
{
    33 <= byte && byte <= 126
}

fn has_user(entries: &[(Text, Text)], user: &[u8]) -> bool
    ensures { result ≡ list_any (spec.has_user user.now) entries.now }
{
    for entry in entries {
        if entry.0.as_str().as_bytes() == user {
            return true;
        }
    }
    false
}

fn has_token(entries: &[(Text, Text)], token: &[u8]) -> bool
    ensures { result ≡ list_any (spec.has_token token.now) entries.now }
{
    for entry in entries {
        if entry.1.as_str().as_bytes() == token {
            return true;
        }
    }
    false
}
