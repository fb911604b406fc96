//! Writes the value at a key: a name, a role, a prefix, locators, or an array of tables.

ghost use Rattle.std.specs.Prelude.{◌≡◌, true, OnOk, IfOk, IsUtf8};
ghost use Rattle.std.specs.List.{All};
ghost use Rattle.toml.specs.Data.{string};
ghost use Rattle.toml.specs.View.{view, table_view};
ghost use Rattle.ddt_path.specs.Names.{is_name};
ghost use Rattle.ddt_text.specs.Grammar.{SpellsLocator, SpellsPrefix};
ghost use Rattle.ddt_text.specs.Written.{written_locator, written_prefix};
ghost use Rattle.ddt_config.specs.Table.{key_text, role_text};
ghost use Rattle.ddt_config.specs.Writing.{inserted, written_each};

use crate::fault::Key;
use ddt_path::{Locator, Name, Prefix, Role};
use ddt_text::{write_locator, write_prefix};
use std::alloc::{AllocError, Global};
use toml::{Table, Value};

/// An item that is written as one value of an array.
pub trait Written {
    ghost use Rattle.toml.specs.Data.{Data};

    ghost written: { Self → Data };

    ghost is_spelled: { Self → Type 0 };

    fn write(&self, alloc: Global) -> Result<Value, AllocError>
        ensures written { IfOk result (λ v. view v ≡ written self.now) }
        ensures spelled { OnOk result (is_spelled self.now) };
}

impl Written for Locator {
    ghost written = { λ l. string (written_locator l) };

    ghost is_spelled = { λ l. SpellsLocator (written_locator l) l };

    #[tactic(auto, using(ddt_text::specs::laws::Ascii::utf8_locator))]
    fn write(&self, alloc: Global) -> Result<Value, AllocError> {
        let mut text = Vec::new(alloc);
        write_locator(&mut text, *self)?;
        Ok(text_value(text))
    }
}

/// Writes each item, in order, as a value of one array.
pub fn array_value<T: Written>(alloc: Global, items: &[T]) -> Result<Value, AllocError>
    ensures written { IfOk result (λ v. view v ≡ written_each T.written items.now) }
    ensures spelled { OnOk result (All T.is_spelled items.now) }
{
    let mut values = Vec::new(alloc);
    for item in items {
        values.push(item.write(alloc)?)?;
    }
    Ok(Value::Array(values))
}

/// Puts a value at a key that the table lacks.
#[tactic(auto, using(crate::proofs::WriteLemmas::members_inserted))]
pub fn put(alloc: Global, table: &mut Table, key: Key, value: Value) -> Result<(), AllocError>
    ensures { OnOk result (table_view table.new ≡ inserted (key_text key) (view value) (table_view table.old)) }
{
    table.insert(String::from_str(alloc, key.text())?, value)?;
    Ok(())
}

fn text_value(text: Vec<u8>) -> Value
    requires { IsUtf8 text.items }
    ensures { view result ≡ string text.items }
{
    match String::from_utf8(text) {
        Ok(text) => Value::String(text),
        Err(_) => unreachable!(),
    }
}

/// Writes the name as a text.
#[tactic(auto, using(ddt_text::specs::laws::Ascii::utf8_name))]
pub fn name_value(alloc: Global, name: Name) -> Result<Value, AllocError>
    ensures { IfOk result (λ v. (view v ≡ string name) × (is_name name ≡ true)) }
{
    Ok(text_value(Vec::from_slice(alloc, name.as_bytes())?))
}

/// Writes the role as `node` or `ms`.
pub fn role_value(alloc: Global, role: Role) -> Result<Value, AllocError>
    ensures { IfOk result (λ v. view v ≡ string (role_text role)) }
{
    match role {
        Role::Node => Value::string(alloc, "node"),
        Role::Ms => Value::string(alloc, "ms"),
    }
}

/// Writes the prefix as a text, which spells it.
pub fn prefix_value(alloc: Global, prefix: Prefix) -> Result<Value, AllocError>
    ensures written { IfOk result (λ v. view v ≡ string (written_prefix prefix)) }
    ensures spelled { OnOk result (SpellsPrefix (written_prefix prefix) prefix) }
{
    let _form = prefix.form();
    let mut text = Vec::new(alloc);
    write_prefix(&mut text, prefix)?;
    Ok(text_value(text))
}
