// The user of a request.
ghost use Rattle.std.specs.Prelude.{◌≡◌, IsErrOf};
ghost use Rattle.std.specs.Option.{option_map};
ghost use Rattle.oe_routes.specs.Steps.{Gives};
ghost use Rattle.oe_routes.specs.Tokens as tokens;
ghost use Rattle.oe_routes.specs.Users as spec;

use crate::refusal::Refusal;
use oe_dims::Text;
use oe_replies::ReplyCode;

/// The user of a request among these users with their tokens, by the value of its field `Authorization`; none where
/// none is needed. Takes no memory.
///
/// Refuses: `AuthenticationRequired` where there is no such field; `TokenInvalid` where its value is not
/// `Bearer basic//TOKEN` with the token of a user.
pub fn user_of<'a>(
    entries: &'a [(Text, Text)],
    needs_user: bool,
    authorization: Option<&str>,
) -> Result<Option<&'a Text>, Refusal>
    ensures user { Gives (λ u. option_map (λ t. t.now) u) result
        (spec.user_of entries.now needs_user (option_map (λ v. v.now) authorization.entry)) }
    ensures memory { ¬ IsErrOf result Refusal.OutOfMemory }
{
    if !needs_user {
        return Ok(None);
    }
    match authorization {
        Some(value) => match token_in(value) {
            Some(token) => user_with(entries, token),
            None => Err(Refusal::Code(ReplyCode::TokenInvalid)),
        },
        None => Err(Refusal::Code(ReplyCode::AuthenticationRequired)),
    }
}

/// The user of a token.
fn user_with<'a>(entries: &'a [(Text, Text)], token: &[u8]) -> Result<Option<&'a Text>, Refusal>
    ensures user { Gives (λ u. option_map (λ t. t.now) u) result
        (spec.user_with entries.now token.now) }
    ensures memory { ¬ IsErrOf result Refusal.OutOfMemory }
{
    for entry in entries {
        if has_token(entry, token) {
            return Ok(Some(&entry.0));
        }
    }
    Err(Refusal::Code(ReplyCode::TokenInvalid))
}

fn has_token(entry: &(Text, Text), token: &[u8]) -> bool
    ensures { result ≡ tokens.has_token token.now entry.now }
{
    entry.1.as_str().as_bytes() == token
}

/// The token behind the scheme.
fn token_in(value: &str) -> Option<&[u8]>
    ensures { option_map (λ t. t.now) result ≡ spec.token_in value.now }
{
    let bytes = value.as_bytes();
    if bytes.len() < 14 {
        return None;
    }
    let (scheme, token) = bytes.split_at(14);
    if scheme == b"Bearer basic//".as_slice() {
        Some(token)
    } else {
        None
    }
}
