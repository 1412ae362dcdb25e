//! Numbers on the command line.

ghost use Rattle.std.specs.Prelude.{◌≡◌, IfSome, None};
ghost use Rattle.std.specs.Str.Parse.{digits_value};
ghost use Rattle.strata_words.specs.CommandLine.{IsNumberTo};
ghost use Rattle.strata_words.specs.Owners.{IsId, IsOwner, owner_in};

use stack_model::Owner;

/// The number in a text of only digits, if it is from 1 to `most`.
pub(crate) fn number_to(text: &str, most: u32) -> Option<u32>
    ensures some { IfSome result (λ number.
        IsNumberTo most text.now × (number ≡ digits_value 10 text.now)) }
    ensures none { result ≡ None → ¬ IsNumberTo most text.now }
{
    match id_in(text) {
        Some(number) if 1 <= number && number <= most => Some(number),
        _ => None,
    }
}

/// The user and the group in a text of two numbers joined by a colon, if it is one and both are
/// below 2^32.
pub(crate) fn owner_in(text: &str) -> Option<Owner>
    ensures some { IfSome result (λ owner. IsOwner text.now × (owner ≡ owner_in text.now)) }
    ensures none { result ≡ None → ¬ IsOwner text.now }
{
    let (user, group) = text.split_once(':')?;
    let uid = id_in(user)?;
    let gid = id_in(group)?;
    Some(Owner { uid, gid })
}

// The number in a text of only digits, if it is below 2^32.
fn id_in(text: &str) -> Option<u32>
    ensures some { IfSome result (λ id. IsId text.now × (id ≡ digits_value 10 text.now)) }
    ensures none { result ≡ None → ¬ IsId text.now }
{
    if text.starts_with('+') {
        return None;
    }
    text.parse::<u32>().ok()
}
