//! A child: a delegation of a DDT node (RFC 8111, section 4), and its table.

ghost use Rattle.toml.specs.Data.{table};
ghost use Rattle.ddt_config.specs.Table.{child_in};
ghost use Rattle.ddt_config.specs.Shaped.{fits};
ghost use Rattle.ddt_config.specs.Writing.{written_child, IsChildSpelled};

use crate::config_item::ConfigItem;
use crate::fault::{ConfigFault, Key};
use crate::members::{are_locators_at, locators_at, prefix_in, role_in};
use crate::values::{Written, array_value, prefix_value, put, role_value};
use ddt_path::{Listed, Locator, LocatorSet, Prefix, Prefixed, Role};
use std::alloc::{AllocError, Global};
use std::marker::Model;
use toml::{Table, Value};

/// A prefix that is delegated to the servers of another group.
#[derive(Clone, Copy, Debug)]
pub struct Child {
    pub prefix: Prefix,
    /// Whether those servers are DDT nodes or Map-Servers.
    pub role: Role,
    /// Their locators, 1 to 8.
    pub locators: LocatorSet,
}

impl Prefixed for Child {
    ghost path = { λ c. c.prefix };

    fn prefix(&self) -> Prefix {
        self.prefix
    }
}

/// A child in its table, with any number of locators. Contracts see it as a child.
#[derive(Debug, Drop)]
pub struct ChildDraft {
    pub prefix: Prefix,
    pub role: Role,
    pub locators: Listed<Locator>,
}

impl Model for ChildDraft {
    ghost use Rattle.ddt_config.specs.declared.child.Child.{Child as ChildValue};

    ghost Value = { ChildValue };

    ghost view = { λ c. record { prefix = c.prefix; role = c.role; locators = c.locators } };
}

impl Prefixed for ChildDraft {
    ghost path = { λ c. c.prefix };

    fn prefix(&self) -> Prefix {
        self.prefix
    }
}

impl ConfigItem for ChildDraft {
    type Finished = Child;

    ghost item_in = { λ _ ms. child_in ms };

    ghost has_room = { λ c. fits c.locators };

    ghost finished = { λ c. c };

    fn read(alloc: Global, _role: Role, table: &Table) -> Result<ChildDraft, ConfigFault> {
        let prefix = prefix_in(table)?;
        let role = role_in(table)?;
        let locators = locators_at(alloc, table, Key::Locators)?;
        Ok(ChildDraft {
            prefix,
            role,
            locators,
        })
    }

    fn is_read(_role: Role, table: &Table) -> bool {
        prefix_in(table).is_ok() && role_in(table).is_ok() && are_locators_at(table, Key::Locators)
    }

    fn finish(&self, _alloc: Global) -> Result<Child, AllocError> {
        Ok(Child {
            prefix: self.prefix,
            role: self.role,
            locators: LocatorSet::of_few(self.locators.as_slice()),
        })
    }
}

impl Written for Child {
    ghost written = { λ c. table (written_child c) };

    ghost is_spelled = { IsChildSpelled };

    fn write(&self, alloc: Global) -> Result<Value, AllocError> {
        let mut table = Table::new(alloc);
        let prefix = prefix_value(alloc, self.prefix)?;
        put(alloc, &mut table, Key::Prefix, prefix)?;
        let role = role_value(alloc, self.role)?;
        put(alloc, &mut table, Key::Kind, role)?;
        let locators = array_value(alloc, self.locators.as_slice())?;
        put(alloc, &mut table, Key::Locators, locators)?;
        Ok(Value::Table(table))
    }
}
