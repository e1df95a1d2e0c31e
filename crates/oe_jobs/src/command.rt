// What a user asks for, and what is answered.
use crate::change::Change;
use crate::level::Level;
use oe_dims::Text;
use oe_graph::StoredProcess;

/// A command of a user.
pub enum Command {
    /// A new job.
    Create {
        title: Option<Text>,
        description: Option<Text>,
        process: Text,
        level: Level,
    },
    /// Another title, description, process or level, each where it is given.
    Patch {
        id: Text,
        title: Option<Option<Text>>,
        description: Option<Option<Text>>,
        process: Option<Text>,
        level: Option<Level>,
    },
    Delete {
        id: Text,
    },
    /// Has the job run when its turn comes.
    Queue {
        id: Text,
    },
    Cancel {
        id: Text,
    },
    /// A stored process, in place of the user's one with its id.
    Store {
        process: StoredProcess,
    },
    /// Deletes the stored process of this id.
    Forget {
        id: Text,
    },
}

/// Why a command is refused.
#[derive(Clone, Copy, PartialEq, Eq)]
pub enum JobFault {
    /// The user has no job of this id.
    JobNotFound,
    /// The job is queued or running, so it cannot be patched.
    JobLocked,
    /// The user has 32 jobs, or the book has no number left.
    JobLimit,
    /// The user has no stored process of this id.
    ProcessNotFound,
    /// The user has 16 stored processes, and none of this id.
    ProcessLimit,
    /// The catalogue has a process of this id.
    PredefinedProcessExists,
}

/// What a command is answered.
#[derive(Drop)]
pub enum Outcome {
    /// The id of the new job.
    Created(Text),
    Queued,
    Done,
    Refused(JobFault),
}

/// What a command changes, if anything, and what is answered.
#[derive(Drop)]
pub struct Verdict {
    pub change: Option<Change>,
    pub outcome: Outcome,
}

/// Written out, so that a command that ends is one call wherever it does.
impl Drop for Command {
    fn drop(self) {
        match self {
            Command::Create {
                title: _,
                description: _,
                process: _,
                level: _,
            } => {}
            Command::Patch {
                id: _,
                title: _,
                description: _,
                process: _,
                level: _,
            } => {}
            Command::Delete { id: _ } => {}
            Command::Queue { id: _ } => {}
            Command::Cancel { id: _ } => {}
            Command::Store { process: _ } => {}
            Command::Forget { id: _ } => {}
        }
    }
}
