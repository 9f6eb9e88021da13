//! The plan of a driver: jobs of command groups, the files that they leave, and the link.

ghost use Rattle.std.specs.Prelude.{◌≡◌, ◌==◌, ◌<◌, ◌∷◌, ◌++◌, [], None, OnErr, OnOk, IfErr, Some};
ghost use Rattle.std.specs.Prelude.{if◌then◌else◌, length};

use crate::{Listing, Word};
use std::alloc::{AllocError, AllocFailed, Global};
use std::marker::Model;

/// A program and its arguments.
#[derive(Debug, Drop)]
pub struct Command {
    pub program: Word,
    pub words: Listing<Word>,
}

impl Clone for Command {
    ghost is_clone = { λ command copy. copy ≡ command };

    fn clone(&self) -> Result<Command, AllocError> {
        Ok(Command {
            program: self.program.clone()?,
            words: self.words.clone()?,
        })
    }
}

/// Commands that run at once, each but the last piped into the next. A group has at least one.
#[derive(Debug, Drop)]
pub struct Group {
    commands: Vec<Command>,
}

impl Model for Group {
    ghost use Rattle.drv_words.specs.declared.plan.Command.{Command};
    ghost use Rattle.std.specs.Prelude.{◌<◌, List, length};

    ghost Value = { List Command };

    ghost view = { λ g. g.commands.items };

    ghost invariant = { λ g. 0 < length g.commands.items };
}

impl Group {
    /// The group of these commands, or `None` if there are none.
    pub fn from_vec(commands: Vec<Command>) -> Option<Group>
        ensures { result ≡ (if length commands.items == 0 then None else Some commands.items) }
    {
        if commands.is_empty() {
            None
        } else {
            Some(Group { commands })
        }
    }

    /// Returns the commands.
    pub fn into_vec(self) -> Vec<Command>
        ensures commands { result.items ≡ self }
        ensures some { 0 < length self }
    {
        self.commands
    }

    /// The commands, in the order of the pipe.
    pub fn as_slice(&self) -> &[Command]
        ensures commands { result.now ≡ self.now }
        ensures some { 0 < length self.now }
    {
        self.commands.as_slice()
    }

    /// Adds a command at the end of the pipe. On an error the group is unchanged and the command
    /// comes back.
    pub fn push(&mut self, command: Command) -> Result<(), AllocFailed<Command>>
        ensures ok { OnOk result (self.new ≡ self.old ++ command ∷ []) }
        ensures err { OnErr result (self.new ≡ self.old) }
        ensures value_returned { IfErr result (λ e. e.value ≡ command) }
    {
        self.commands.push(command)
    }
}

/// A temporary file: its path, and the bytes that are written when it is claimed.
#[derive(Debug, Drop)]
pub struct Temp {
    pub path: Word,
    pub contents: Word,
}

/// The work on one source, or the link.
#[derive(Debug, Drop)]
pub struct Job {
    /// The index of the source among the line's inputs. `None` for the link, and for a job as the
    /// machine returns it.
    pub source: Option<usize>,
    /// The groups, one after another.
    pub groups: Listing<Group>,
    /// The temporary files that the job claims before its first group.
    pub temps: Listing<Temp>,
    /// The files that are removed at the end of the run.
    pub marked: Listing<Word>,
    /// The files that are removed if the job fails after it has started a command.
    pub on_failure: Listing<Word>,
    /// The file that this job passes to the link.
    pub output: Option<Word>,
}

/// The work of a whole call: notices for the user, a job for each source, and the link.
#[derive(Debug, Drop)]
pub struct Plan {
    pub notices: Listing<Word>,
    pub jobs: Listing<Job>,
    pub link: Option<Job>,
}

/// One line of a printed plan: a command, and whether it is piped into that of the next line.
#[derive(Debug, Drop)]
pub struct PlanLine {
    pub command: Command,
    pub piped: bool,
}
