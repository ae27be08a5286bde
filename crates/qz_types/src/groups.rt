//! The groups of commands. A command is applied by the crate of its group.
ghost use Rattle.std.specs.Prelude.{◌≡◌};
ghost use Rattle.qz_types.specs.Groups.{group_of};

use crate::Command;

/// What a command is about.
#[derive(Clone, Copy, PartialEq, Eq, Debug)]
pub enum Group {
    /// What there is to run, and when: a client's commands.
    Schedule,
    /// Who is a member.
    Membership,
    /// What a member takes, gives back and begins.
    Claim,
    /// The end of an execution.
    End,
}

impl Command {
    /// The group of the command.
    pub fn group(&self) -> Group
        ensures { result ≡ group_of self.now }
    {
        match self {
            Command::Join { .. } | Command::Leave | Command::Recover { .. } => Group::Membership,
            Command::Acquire { .. }
            | Command::Release { .. }
            | Command::Fire { .. }
            | Command::Misfires => Group::Claim,
            Command::Complete { .. } => Group::End,
            _ => Group::Schedule,
        }
    }
}
