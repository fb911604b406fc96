//! The key of a prefix in a hash table, and values that can be duplicated.

ghost use Rattle.std.specs.Prelude.{◌≡◌};
ghost use Rattle.std.specs.Cmp.{partial_equiv_from_equiv};
ghost use Rattle.ddt_path.specs.Path.{path, IsForm};
ghost use Rattle.ddt_path.specs.declared.form.Form.{Form as AForm};
ghost use Rattle.ddt_trie.specs.HashKey.{is_same_key, key_writes, hash_key_of as slot_of_form};
ghost use Rattle.ddt_trie.specs.HashKeyLaws.{keys_equal, keys_alike};

use ddt_path::{Form, Locator, Prefix};
use std::hash::{Hash, Hasher};

/// A value of which there can be two.
pub trait Duplicate: Drop {
    /// An equal value.
    fn duplicate(&self) -> Self
        ensures { result ≡ self.now };
}

impl Duplicate for u32 {
    fn duplicate(&self) -> u32 {
        *self
    }
}

/// The number of IPv4 addresses in an instance.
const ONE_INSTANCE: u64 = 1 << 32;

/// The key of a block of IPv4 addresses, in a quarter of the memory of its prefix.
#[derive(Clone, Copy, PartialEq, Eq, Hash)]
pub struct BlockKey {
    /// The Instance ID in the upper 32 bits, the address in the lower 32.
    pub number: u64,
    /// The number of digits of the address that the block has, 0 to 32.
    pub len: u8,
}

/// The key of any other prefix. Two are equal if and only if the paths of their prefixes are equal.
#[derive(Clone, Copy)]
pub struct PrefixKey {
    pub prefix: Prefix,
}

impl PartialEq for PrefixKey {
    ghost eq = { is_same_key };

    ghost laws = { partial_equiv_from_equiv keys_equal };

    fn eq(&self, other: &PrefixKey) -> bool {
        self.prefix == other.prefix
    }
}

impl Eq for PrefixKey {
    ghost laws = { keys_equal };
}

impl Hash for PrefixKey {
    ghost hash_input = { key_writes };

    ghost respects_eq = { keys_alike };

    fn hash<H: Hasher>(&self, state: &mut H) {
        match self.prefix.form() {
            Form::Range { iid, len } => {
                state.write_u32(iid);
                state.write_u8(len);
            }
            Form::Block {
                iid,
                address: Locator::V4(address),
                len,
            } => {
                // One call, since a hasher takes eight bytes at once.
                state.write_u64(u64::from(iid) * ONE_INSTANCE + u64::from(address));
                state.write_u8(len);
            }
            Form::Block {
                iid,
                address: Locator::V6(address),
                len,
            } => {
                state.write_u32(iid);
                state.write_u128(address);
                state.write_u8(len);
            }
        }
    }
}

/// The key of a prefix in a hash table.
#[derive(Clone, Copy)]
pub enum HashKey {
    Block(BlockKey),
    Other(PrefixKey),
}

/// The key of a prefix. Equal prefixes have equal keys.
pub fn hash_key_of(prefix: Prefix) -> HashKey
    ensures { (form : AForm) × IsForm form × (path form ≡ prefix) × (result ≡ slot_of_form form) }
{
    match prefix.form() {
        Form::Block {
            iid,
            address: Locator::V4(address),
            len,
        } => HashKey::Block(BlockKey {
            number: u64::from(iid) * ONE_INSTANCE + u64::from(address),
            len,
        }),
        Form::Block {
            iid: _iid,
            address: Locator::V6(_address),
            len: _len,
        } => HashKey::Other(PrefixKey { prefix }),
        Form::Range { .. } => HashKey::Other(PrefixKey { prefix }),
    }
}
