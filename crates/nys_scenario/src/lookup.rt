//! Single keys: a number of a range, a text.

ghost use Rattle.std.specs.Prelude.{◌≡◌, ◌≤◌, option_map, IfOk, IfErr, Ok, Err};
ghost use Rattle.toml.specs.Data.{get_member};
ghost use Rattle.toml.specs.View.{table_view, view};
ghost use Rattle.nys_scenario.specs.Keys.{IsFaultOf, named};
ghost use Rattle.nys_scenario.specs.Values.{in_range, number_of, required, text_in, text_of};

use crate::fault::{KeyKind, ScenarioFault};
use crate::keys::key_fault;
use nys_bytes::Text;
use std::alloc::Global;
use toml::{Table, Value};

/// The value of a key.
pub(crate) fn lookup<'a>(table: &'a Table, key: &str) -> Option<&'a Value>
    ensures { option_map (λ v. view v.now) result ≡ get_member key.now (table_view table.now) }
{
    table.get(key)
}

/// A number, where it is in a range.
fn ranged(number: i64, least: u32, most: u32) -> Result<u32, KeyKind>
    ensures value { result ≡ in_range least most number }
    ensures from { IfOk result (λ n. least ≤ n) }
    ensures to { IfOk result (λ n. n ≤ most) }
{
    match u32::try_from(number) {
        Ok(n) if least <= n && n <= most => Ok(n),
        _ => Err(KeyKind::Range),
    }
}

/// A key that has to be a number of a range.
#[tactic(auto, unfolding(crate::specs::Values::number_of))]
pub(crate) fn number_key(table: &Table, key: &str, least: u32, most: u32) -> Result<u32, KeyKind>
    ensures value { result ≡ number_of least most key.now (table_view table.now) }
    ensures from { IfOk result (λ n. least ≤ n) }
    ensures to { IfOk result (λ n. n ≤ most) }
{
    let Some(value) = lookup(table, key) else {
        return Err(KeyKind::Missing);
    };
    let Some(number) = value.as_integer() else {
        return Err(KeyKind::Kind);
    };
    ranged(number, least, most)
}

/// The text of a key, which is empty where it is left out.
#[tactic(auto, unfolding(crate::specs::Values::text_of))]
pub(crate) fn text_at<'a>(table: &'a Table, key: &str) -> Result<&'a str, KeyKind>
    ensures ok { IfOk result (λ text. text_of key.now (table_view table.now) ≡ Ok text.now) }
    ensures err { IfErr result (λ kind. text_of key.now (table_view table.now) ≡ Err kind) }
{
    let Some(value) = lookup(table, key) else {
        return Ok("");
    };
    let Some(text) = value.as_str() else {
        return Err(KeyKind::Kind);
    };
    Ok(text)
}

/// The text of a key that has to be there.
pub(crate) fn needed_text<'a>(table: &'a Table, key: &str) -> Result<&'a str, KeyKind>
    ensures ok { IfOk result (λ text. required text_in (get_member key.now (table_view table.now))
        ≡ Ok text.now) }
    ensures err { IfErr result (λ kind. required text_in (get_member key.now (table_view table.now))
        ≡ Err kind) }
{
    let Some(value) = lookup(table, key) else {
        return Err(KeyKind::Missing);
    };
    let Some(text) = value.as_str() else {
        return Err(KeyKind::Kind);
    };
    Ok(text)
}

/// A copy of the text of a key.
pub(crate) fn text_key(alloc: Global, table: &Table, key: &str) -> Result<Text, ScenarioFault>
    ensures ok { IfOk result (λ text. text_of key.now (table_view table.now) ≡ Ok text) }
    ensures err { IfErr result (IsFaultOf (named key.now (text_of key.now (table_view table.now)))) }
{
    match text_at(table, key) {
        Ok(text) => Ok(Text::new(alloc, text)?),
        Err(kind) => Err(key_fault(alloc, key, kind)),
    }
}
