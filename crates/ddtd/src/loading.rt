//! Loading the configuration and the settings of a daemon.

use crate::input_file::{MOST_CONFIGURATION, MOST_SETTINGS, read, with_path};
use ddt_config::settings::{ServerSettings, Settings};
use ddt_daemon_text::{
    LoadedConfiguration, Message, configuration_of, server_settings_of, settings_of,
};

/// The configuration in a file.
pub fn load_configuration(rt: &HostRuntime, path: &str) -> Result<LoadedConfiguration, Message> {
    let bytes = read(rt, path, MOST_CONFIGURATION)?;
    match configuration_of(rt.alloc(), &bytes) {
        Ok(loaded) => Ok(loaded),
        Err(why) => Err(with_path(rt, path, why)),
    }
}

/// The settings in a file.
pub fn load_settings(rt: &HostRuntime, path: &str) -> Result<Settings, Message> {
    let bytes = read(rt, path, MOST_SETTINGS)?;
    match settings_of(rt.alloc(), &bytes) {
        Ok(settings) => Ok(settings),
        Err(why) => Err(with_path(rt, path, why)),
    }
}

/// The settings of a server in a file; without one, those that allow no ITR.
pub fn load_server_settings(
    rt: &HostRuntime,
    path: Option<&str>,
) -> Result<ServerSettings, Message> {
    let Some(path) = path else {
        return Ok(ServerSettings::none(rt.alloc()));
    };
    let bytes = read(rt, path, MOST_SETTINGS)?;
    match server_settings_of(rt.alloc(), &bytes) {
        Ok(settings) => Ok(settings),
        Err(why) => Err(with_path(rt, path, why)),
    }
}
