//! The master key.

ghost use Rattle.std.specs.Prelude.{◌≡◌};
ghost use Rattle.toml.specs.View.{table_view};
ghost use Rattle.nys_scenario.specs.Values.{master_in, master_of};

use crate::fault::KeyKind;
use crate::limits::MASTER_BYTES;
use crate::lookup::lookup;
use hex::FromHex;
use toml::Table;

/// The key that hexadecimal digits stand for.
fn decoded(text: &str) -> Result<[u8; MASTER_BYTES], KeyKind>
    ensures { result ≡ master_in text.now }
{
    match <[u8; MASTER_BYTES] as FromHex>::from_hex(text) {
        Ok(key) => Ok(key),
        Err(_) => Err(KeyKind::Range),
    }
}

/// The key `master`, which is zeros where it is left out and not needed.
#[tactic(auto, unfolding(crate::specs::Values::master_of))]
pub(crate) fn master_key(table: &Table, needed: bool) -> Result<[u8; MASTER_BYTES], KeyKind>
    ensures { result ≡ master_of needed (table_view table.now) }
{
    let Some(value) = lookup(table, "master") else {
        if needed {
            return Err(KeyKind::Missing);
        }
        return Ok([0; MASTER_BYTES]);
    };
    let Some(text) = value.as_str() else {
        return Err(KeyKind::Kind);
    };
    decoded(text)
}
