//! The servers of a register: one for each group, with the configuration that the register is compiled into.

ghost use Rattle.std.specs.Prelude.{◌≡◌, map, IfOk, Ok, None};
ghost use Rattle.std.specs.List.{All};
ghost use Rattle.std.specs.Option.{option_copied};
ghost use Rattle.ddt_config.specs.Table.{outline};
ghost use Rattle.ddt_compile.specs.laws.Statements.{HasRoom};
ghost use Rattle.ddt_register.specs.declared.register.Register.{Register};
ghost use Rattle.ddt_ecm.specs.Request.{Message};
ghost use Rattle.ddt_node.specs.Server.{IsDdtRequest, ddt_request};
ghost use Rattle.ddt_sim.specs.Honest.{IsServer, IsHonestReply};
ghost use Rattle.ddt_sim.specs.Compiled.{AreCompiled, configs_of, server_at as server_at_locator, reply_at};

use crate::servers::Servers;
use ddt_check::Accepted;
use ddt_compile::{a_compiled_configuration_answers_honestly, compile};
use ddt_config::ServerConfig;
use ddt_node::Server;
use ddt_path::{Listed, Locator};
use ddt_trie::PrefixMap;
use std::alloc::{AllocError, Global};
use std::marker::Model;

/// The servers of all groups, in the order of the groups' rows. Contracts see the list of their configurations.
#[derive(Drop)]
pub struct Compiled<M: PrefixMap<u32>> {
    servers: Vec<Server<M>>,
}

impl<M: PrefixMap<u32>> Model for Compiled<M> {
    ghost use Rattle.std.specs.Prelude.{List};
    ghost use Rattle.ddt_config.specs.Table.{Outline};

    ghost Value = { List Outline };

    ghost view = { λ c. c.servers.items };
}

impl<M: PrefixMap<u32>> Compiled<M> {
    /// Builds a server for each group of an accepted register, in the order of the groups' rows. Fails only if out of
    /// memory.
    pub fn build(alloc: Global, accepted: &Accepted) -> Result<Compiled<M>, AllocError>
        ensures built { IfOk result (λ servers. servers ≡ configs_of accepted.now) }
        ensures compiled { IfOk result (λ servers. AreCompiled servers accepted.now) }
    {
        // Read for its bound: the register is accepted.
        let _register = accepted.register();
        let servers = build_each(alloc, compile(alloc, accepted)?)?;
        Ok(Compiled { servers })
    }

    /// The servers, in the order of the groups' rows.
    pub fn servers(&self) -> &[Server<M>]
        ensures { result.now ≡ self.now }
    {
        self.servers.as_slice()
    }

    /// The reply to a datagram that is sent to a locator: a Map-Referral if it is a DDT Map-Request to a server of the
    /// register. None if no group lists the locator, or if the server sends nothing. Fails only if out of memory (RFC
    /// 8111, sections 7.1 and 7.2).
    pub fn reply(
        &self,
        alloc: Global,
        to: Locator,
        request: &[u8],
    ) -> Result<Option<Listed<u8>>, AllocError>
        ensures reply { IfOk result (λ reply. reply ≡ reply_at self.now to request.now) }
        ensures says { (r : Register) (m : Message) → AreCompiled self.now r → IsServer r to
            → IsDdtRequest request.now m → IfOk result (IsHonestReply r to m) }
        ensures nothing { (r : Register) → AreCompiled self.now r → (IsServer r to → ⊥) → result ≡ Ok None }
        ensures none { server_at_locator self.now to ≡ None → result ≡ Ok None }
        ensures ignored { ddt_request request.now ≡ None → result ≡ Ok None }
    {
        a_compiled_configuration_answers_honestly();
        match self.server_at(to) {
            Some(server) => server.reply(alloc, request),
            None => Ok(None),
        }
    }

    /// The server at a locator; None if no group lists it.
    fn server_at(&self, l: Locator) -> Option<&Server<M>>
        ensures { option_copied result ≡ server_at_locator self.now l }
    {
        self.servers
            .as_slice()
            .iter()
            .find(|s| s.locators().as_slice().contains(&l))
    }
}

/// Builds a server for each configuration, in order.
fn build_each<M: PrefixMap<u32>>(
    alloc: Global,
    configs: Listed<ServerConfig>,
) -> Result<Vec<Server<M>>, AllocError>
    requires { All (λ c. HasRoom (outline c)) configs }
    ensures { IfOk result (λ servers. servers.items ≡ map outline configs) }
{
    let mut servers = Vec::with_capacity(alloc, configs.as_slice().len())?;
    for config in configs.into_vec() {
        match Server::build(alloc, config) {
            Ok(server) => servers.push(server)?,
            Err(_refused) => return Err(AllocError),
        }
    }
    Ok(servers)
}

impl<M: PrefixMap<u32>> Servers for Compiled<M> {
    ghost honest = { AreCompiled };

    ghost silent = { AreCompiled };

    fn answer(
        &mut self,
        alloc: Global,
        to: Locator,
        request: &[u8],
    ) -> Result<Option<Listed<u8>>, AllocError>
        ensures reply { IfOk result (λ reply. reply ≡ reply_at self.old to request.now) }
        ensures says { (r : Register) (m : Message) → AreCompiled self.old r → IsServer r to
            → IsDdtRequest request.now m → IfOk result (IsHonestReply r to m) }
        ensures nothing { (r : Register) → AreCompiled self.old r → (IsServer r to → ⊥) → result ≡ Ok None }
        ensures stay { (r : Register) → AreCompiled self.old r → AreCompiled self.new r }
        ensures stay_silent { (r : Register) → AreCompiled self.old r → AreCompiled self.new r }
        ensures none { server_at_locator self.old to ≡ None → result ≡ Ok None }
        ensures ignored { ddt_request request.now ≡ None → result ≡ Ok None }
        ensures same { self.new ≡ self.old }
    {
        self.reply(alloc, to, request)
    }
}
