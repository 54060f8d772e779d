//! The texts by which volumes and containers are named.
ghost use Rattle.std.specs.Prelude.{◌≡◌, ◌<◌, ℕ, Some, IfOk, nat_eq, string_bytes};
ghost use Rattle.std.specs.List.{starts_with};
ghost use Rattle.vv_units.specs.Identifiers.{identifier_limit, identifier_prefix, identifier_text, identifier_of, uuid_of, uuid_in, number_in};

use crate::NoMemory;
use std::alloc::Global;
use uuid::Uuid;

const PREFIX: &str = "rfc4122.";

const PREFIX_LENGTH: usize = 8;

const TEXT_LENGTH: usize = 44;

/// The UUID of number 0: custom_a is 1, the version 8, custom_b 0, and the variant 2 (RFC 9562).
const FIRST_UUID: u128 = (1 << 80) + (8 << 76) + (2 << 62);

/// The numbers that have an identifier are those below.
const LIMIT: u128 = 1 << 62;

/// The text of a number's identifier, in lower case.
pub fn id_text(alloc: Global, number: u64) -> Result<String, NoMemory>
    requires { number < identifier_limit }
    ensures { IfOk result (λ text. string_bytes text ≡ identifier_text number) }
{
    let uuid = uuid_for(number);
    let mut buffer = Uuid::encode_buffer();
    let hyphenated = uuid.hyphenated();
    let digits = hyphenated.encode_lower(&mut buffer);
    let Ok(mut text) = String::from_str(alloc, PREFIX) else {
        return Err(NoMemory);
    };
    match text.push_str(digits) {
        Ok(()) => Ok(text),
        Err(_) => Err(NoMemory),
    }
}

#[tactic(auto, unfolding(crate::specs::Identifiers::uuid_of))]
fn uuid_for(number: u64) -> Uuid
    requires { number < identifier_limit }
    ensures { result ≡ uuid_of number }
{
    Uuid::from_u128(FIRST_UUID + u128::from(number))
}

/// The number that a text names, in digits of either case.
pub fn id_read(text: &str) -> Option<u64>
    ensures { result ≡ identifier_of text.now }
{
    number_of(find_uuid(text.as_bytes())?)
}

fn has_prefix(text: &[u8]) -> bool
    ensures { result ≡ starts_with nat_eq text.now identifier_prefix }
{
    text.starts_with(PREFIX.as_bytes())
}

fn find_uuid(text: &[u8]) -> Option<Uuid>
    ensures { result ≡ uuid_in text.now }
{
    if text.len() != TEXT_LENGTH || !has_prefix(text) {
        return None;
    }
    let (_, digits) = text.split_at(PREFIX_LENGTH);
    Uuid::try_parse_ascii(digits).ok()
}

fn number_of(uuid: Uuid) -> Option<u64>
    ensures { result ≡ number_in uuid }
{
    let value = uuid.as_u128();
    if value < FIRST_UUID || value >= FIRST_UUID + LIMIT {
        return None;
    }
    Some((value - FIRST_UUID) as u64)
}

/// An identifier's text names its number.
pub fn texts_name_their_numbers()
    ensures { (number : ℕ) → number < identifier_limit → identifier_of (identifier_text number) ≡ Some number }
{}
