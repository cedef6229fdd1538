//! Which byte strings may be names.

ghost use Rattle.std.specs.Prelude.{◌≡◌};
ghost use Rattle.std.specs.List.{list_all};
ghost use Rattle.fbas_model.specs.Names.{is_key, is_key_byte};

use fbas_model::MOST_KEY_BYTES;

fn is_key_byte(byte: u8) -> bool
    ensures { result ≡ is_key_byte byte }
{
    0x21 <= byte && byte <= 0x7e && byte != b','
}

fn has_key_bytes(name: &[u8]) -> bool
    ensures { result ≡ list_all is_key_byte name.now }
{
    name.iter().all(|byte| is_key_byte(*byte))
}

/// Whether the bytes may be the name of a node: 1 to `MOST_KEY_BYTES` printable bytes with no space and no comma. O(1).
pub fn is_key(name: &[u8]) -> bool
    ensures { result ≡ is_key name.now }
{
    if name.is_empty() || name.len() > MOST_KEY_BYTES {
        return false;
    }
    has_key_bytes(name)
}
