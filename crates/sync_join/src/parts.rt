//! What the tokens of one field make together, strategy by strategy.
ghost use Rattle.std.specs.Prelude.{◌≡◌, IfOk};
ghost use Rattle.std.specs.List.{list_all};
ghost use Rattle.sync_join.specs.Join as shards;
ghost use Rattle.sync_join.specs.Views.{value_tree};

use crate::tokens::Token;
use crate::values::Value;
use std::alloc::Global;
use sync_base::NoMemory;
use sync_entries::Entries;

/// The value of a field's one token, none where there is not exactly one.
pub(crate) fn only_value(tokens: &[Token], field: u32) -> Option<i128>
    ensures { result ≡ shards.only_value (shards.tokens_of field tokens.now) }
{
    let mut found = None;
    for token in tokens {
        if token.field == field {
            if found.is_some() {
                return None;
            }
            found = Some(token.value);
        }
    }
    found
}

/// A field's tokens as a map, none where two have one key.
pub(crate) fn as_map(
    alloc: Global,
    tokens: &[Token],
    field: u32,
) -> Result<Option<Entries>, NoMemory>
    ensures { IfOk result (λ m. m ≡ shards.as_map (shards.tokens_of field tokens.now)) }
{
    let mut map = Entries::new(alloc);
    for token in tokens {
        if token.field == field {
            if map.get(token.key).is_some() {
                return Ok(None);
            }
            map.put(token.key, token.value)?;
        }
    }
    Ok(Some(map))
}

/// The tokens of a field as a map. Of two tokens with one key the first counts.
pub fn map_of_tokens(alloc: Global, tokens: &[Token], field: u32) -> Result<Entries, NoMemory>
    ensures { IfOk result (λ m. m ≡ shards.map_of (shards.tokens_of field tokens.now)) }
{
    let mut map = Entries::new(alloc);
    let mut left = tokens.len();
    while left > 0 {
        left -= 1;
        let token = tokens[left];
        if token.field == field {
            map.put(token.key, token.value)?;
        }
    }
    Ok(map)
}

/// How many tokens of a field have each key.
pub(crate) fn counts_of(alloc: Global, tokens: &[Token], field: u32) -> Result<Entries, NoMemory>
    ensures { IfOk result (λ m. m ≡ shards.counts_of (shards.tokens_of field tokens.now)) }
{
    let mut counts = Entries::new(alloc);
    for token in tokens {
        if token.field == field {
            let before = counts.get(token.key).unwrap_or(0);
            counts.put(token.key, before + 1)?;
        }
    }
    Ok(counts)
}

/// Whether a record has a token's key with its value.
fn is_entry(recorded: &Value, token: &Token) -> bool
    ensures { result ≡ shards.is_entry (value_tree recorded.now) token.now }
{
    match recorded {
        Value::Map(entries) => entries.get(token.key) == Some(token.value),
        Value::Number(_) => false,
    }
}

/// Whether a record has a token's key.
fn is_element(recorded: &Value, token: &Token) -> bool
    ensures { result ≡ shards.is_element (value_tree recorded.now) token.now }
{
    match recorded {
        Value::Map(entries) => entries.get(token.key).is_some(),
        Value::Number(_) => false,
    }
}

/// Whether a record has reached a token's amount.
fn is_reached(recorded: &Value, token: &Token) -> bool
    ensures { result ≡ shards.is_reached (value_tree recorded.now) token.now }
{
    match recorded {
        Value::Number(mark) => token.value <= *mark,
        Value::Map(_) => token.value <= 0,
    }
}

/// Whether a record has the key and value of each token of a field.
pub(crate) fn are_entries(recorded: &Value, tokens: &[Token], field: u32) -> bool
    ensures { result ≡ list_all (shards.is_entry (value_tree recorded.now)) (shards.tokens_of field tokens.now) }
{
    tokens
        .iter()
        .all(|token| token.field != field || is_entry(recorded, token))
}

/// Whether a record has the key of each token of a field.
pub(crate) fn are_elements(recorded: &Value, tokens: &[Token], field: u32) -> bool
    ensures { result ≡ list_all (shards.is_element (value_tree recorded.now)) (shards.tokens_of field tokens.now) }
{
    tokens.iter().all(|token| token.field != field || is_element(recorded, token))
}

/// Whether a record has reached the amount of each token of a field.
pub(crate) fn are_reached(recorded: &Value, tokens: &[Token], field: u32) -> bool
    ensures { result ≡ list_all (shards.is_reached (value_tree recorded.now)) (shards.tokens_of field tokens.now) }
{
    tokens.iter().all(|token| token.field != field || is_reached(recorded, token))
}
