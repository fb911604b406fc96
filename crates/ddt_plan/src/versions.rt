//! The configurations of each group in two registers, by the group's name.

ghost use Rattle.std.specs.Prelude.{◌≡◌, IfOk};
ghost use Rattle.ddt_plan.specs.Versions.{AreVersions, HasPut, joined as joined_of};

use ddt_check::Accepted;
use ddt_compile::compile;
use ddt_config::ServerConfig;
use ddt_path::Name;
use std::alloc::{AllocError, Global};
use std::collections::BTreeMap;

/// The configurations of one group.
#[derive(Drop)]
pub enum Versions {
    /// Of the earlier register alone.
    Before(ServerConfig),
    /// Of the later register alone.
    After(ServerConfig),
    /// Of the earlier register and of the later one.
    Both(ServerConfig, ServerConfig),
}

/// Which of two registers.
#[derive(Clone, Copy)]
pub enum Which {
    Earlier,
    Later,
}

/// The configurations that `ddt_compile` makes of each group of two registers, by its name. A name of no group is no
/// key. Fails only if out of memory.
pub fn versions_by_name(
    alloc: Global,
    before: &Accepted,
    after: &Accepted,
) -> Result<BTreeMap<Name, Versions>, AllocError>
    ensures { IfOk result (λ versions. AreVersions before.now after.now versions) }
{
    let earlier = put_all(alloc, BTreeMap::new(alloc), Which::Earlier, before)?;
    put_all(alloc, earlier, Which::Later, after)
}

/// Adds the configuration of each group of a register under its name.
fn put_all(
    alloc: Global,
    versions: BTreeMap<Name, Versions>,
    which: Which,
    accepted: &Accepted,
) -> Result<BTreeMap<Name, Versions>, AllocError>
    ensures { IfOk result (λ put. HasPut which accepted.now versions put) }
{
    let mut all = versions;
    for config in compile(alloc, accepted)?.into_vec() {
        let name = config.name;
        let known = all.remove(&name);
        all.insert(name, joined(which, known, config))?;
    }
    Ok(all)
}

/// The known configurations of a group with another one. Of two with the same name in a register, the first counts.
fn joined(which: Which, known: Option<Versions>, config: ServerConfig) -> Versions
    ensures { result ≡ joined_of which known config }
{
    match (which, known) {
        (Which::Earlier, None) => Versions::Before(config),
        (Which::Later, None) => Versions::After(config),
        (Which::Later, Some(Versions::Before(earlier))) => Versions::Both(earlier, config),
        (_, Some(known)) => known,
    }
}
