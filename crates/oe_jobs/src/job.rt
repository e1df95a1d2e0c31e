// A batch job.
use crate::level::Level;
use crate::status::Status;
use oe_dims::Text;
use oe_graph::StoredProcess;

/// An entry of a job's logs.
pub struct LogEntry {
    pub level: Level,
    pub code: Option<Text>,
    pub message: Text,
}

/// A result file of a job: its name, and the text that it holds.
pub struct Asset {
    pub name: Text,
    pub text: Text,
}

/// What a job runs: its process and its user's stored processes, as they were when it was queued.
pub struct Ran {
    pub process: Text,
    pub stored: Vec<StoredProcess>,
}

/// A batch job (openEO API, batch jobs).
pub struct Job {
    /// `j-N`, where N is the number that the job drew.
    pub id: Text,
    pub user: Text,
    pub title: Option<Text>,
    pub description: Option<Text>,
    /// The compact JSON text of the process.
    pub process: Text,
    pub status: Status,
    /// The least severe level of the entries that the logs keep.
    pub level: Level,
    /// When it was created, in seconds since 1970-01-01T00:00:00Z.
    pub created: i64,
    /// When it was changed last, in the same unit.
    pub updated: i64,
    /// The number that it drew when it was queued last, or 0.
    pub turn: u64,
    pub ran: Option<Ran>,
    pub logs: Vec<LogEntry>,
    pub assets: Vec<Asset>,
}

/// Written out, as those below, so that such a value ends by one call wherever it does.
impl Drop for LogEntry {
    fn drop(self) {
        let LogEntry {
            level: _,
            code: _,
            message: _,
        } = self;
    }
}

impl Drop for Asset {
    fn drop(self) {
        let Asset { name: _, text: _ } = self;
    }
}

impl Drop for Ran {
    fn drop(self) {
        let Ran {
            process: _,
            stored: _,
        } = self;
    }
}

impl Drop for Job {
    fn drop(self) {
        let Job {
            id: _,
            user: _,
            title: _,
            description: _,
            process: _,
            status: _,
            level: _,
            created: _,
            updated: _,
            turn: _,
            ran: _,
            logs: _,
            assets: _,
        } = self;
    }
}
