//! The main loop of the daemon in either role: wait for datagrams, run a round of the role, run a control command.

use crate::control_socket::{Control, ControlRequest};
use crate::exit_status::ExitStatus;
use crate::log::{Log, Priority};
use crate::poll::Poll;
use crate::system_clock::{pause, seconds};
use crate::systemd_notify::{State, notify};
use ddt_daemon::{DaemonStatistics, Times};
use ddt_daemon_text::Message;

/// The role of a daemon: a server (DDT node or Map-Server) or a Map-Resolver.
pub trait Role: Drop {
    /// Adds the role's sockets to those that the poll waits for.
    fn add_to(&self, poll: &mut Poll);

    /// The longest wait for a datagram, in milliseconds.
    fn poll_timeout_ms(&mut self, rt: &HostRuntime) -> i32;

    /// Runs one round after a wait. Returns whether a watched file has changed, so that the files are to be reloaded.
    fn round(&mut self, rt: &HostRuntime, poll: &Poll, log: &mut Log) -> bool;

    /// Reads its files again and adopts them. If they are refused, all stays as it is, and the message has the reason.
    fn reload(&mut self, rt: &HostRuntime, log: &mut Log) -> Result<(), Message>;

    /// What is in force, in words for the log.
    fn status_text(&self, rt: &HostRuntime) -> Message;

    /// Logs what is suspect in what is in force, after the log has its status.
    fn log_warnings(&mut self, rt: &HostRuntime, log: &mut Log);

    /// The word for its file: `configuration` or `settings`.
    fn source_name(&self) -> &'static str;

    /// Its counts, a line `name=value` each.
    fn statistics(&self, rt: &HostRuntime, daemon: DaemonStatistics) -> Message;

    /// Runs a control command that only one role has, and returns the answer.
    fn answer(&mut self, rt: &HostRuntime, request: &ControlRequest, log: &mut Log) -> Message;
}

/// A running role.
#[derive(Drop)]
pub struct Daemon<R: Role> {
    pub role: R,
    pub control: Control,
    pub poll: Poll,
    pub times: Times,
    /// The number of reloads that were refused.
    pub refused: u64,
}

/// Runs a role until the command `stop`. If the role couldn't start, logs the reason.
pub fn run<R: Role>(
    rt: &HostRuntime,
    role: Result<R, Message>,
    path: Option<&str>,
    log: &mut Log,
) -> ExitStatus {
    match Daemon::start(rt, role, path) {
        Ok(mut daemon) => {
            daemon.log_status(rt, "ready", log);
            notify(rt, State::Ready);
            daemon.run(rt, log);
            notify(rt, State::Stopping);
            daemon.control.finish(rt);
            daemon.control.remove_file(rt, path);
            log.say(rt, Priority::Notice, format!(in rt.alloc(); "stopped"));
            ExitStatus::Answered
        }
        Err(why) => {
            log.say(rt, Priority::Error, why);
            ExitStatus::Refused
        }
    }
}

impl<R: Role> Daemon<R> {
    /// Opens the control socket at `path`, if one is given.
    fn start(
        rt: &HostRuntime,
        role: Result<R, Message>,
        path: Option<&str>,
    ) -> Result<Daemon<R>, Message> {
        let role = role?;
        let control = Control::open(rt, path)?;
        let now = seconds(rt);
        Ok(Daemon {
            role,
            control,
            poll: Poll::new(rt.alloc()),
            times: Times {
                start: now,
                reload: now,
            },
            refused: 0,
        })
    }

    /// Runs rounds until the command `stop`.
    fn run(&mut self, rt: &HostRuntime, log: &mut Log) {
        for _round in 0..u64::MAX {
            self.poll.clear();
            self.role.add_to(&mut self.poll);
            let first = self.poll.len();
            self.control.add_to(&mut self.poll, seconds(rt));
            let poll_timeout_ms = self.role.poll_timeout_ms(rt);
            if !self.poll.wait(poll_timeout_ms) {
                pause(rt);
            }
            if self.role.round(rt, &self.poll, log) {
                let _answer = self.reload(rt, log);
            }
            if self.handle_control(rt, first, log) {
                return;
            }
        }
    }

    /// Logs what is in force, after a word such as `ready`, and then the role's warnings.
    pub fn log_status(&mut self, rt: &HostRuntime, what: &str, log: &mut Log) {
        let line = match self.role.status_text(rt) {
            Ok(text) => format!(in rt.alloc(); "{what}: {text}"),
            Err(refused) => Err(refused),
        };
        log.say(rt, Priority::Notice, line);
        self.role.log_warnings(rt, log);
    }
}
