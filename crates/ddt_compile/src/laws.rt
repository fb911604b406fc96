//! The law of compiled configurations, over the definitions alone: the contract of a function that does nothing.

ghost use Rattle.ddt_compile.specs.laws.Statements.{AnswersHonestly, ConfigsAreShaped, ConfigsHaveRoom};

/// The configuration of each group of an accepted register answers each identifier, at each locator of the group, with
/// the record that an honest server with this locator sends (RFC 8111, sections 6.1, 7.1 and 7.2). It has the shape of
/// a configuration, and its authorities with all that they hold are fewer than 1,048,576.
pub fn a_compiled_configuration_answers_honestly()
    ensures honest { AnswersHonestly }
    ensures shaped { ConfigsAreShaped }
    ensures room { ConfigsHaveRoom }
{}
