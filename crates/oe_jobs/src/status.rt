// The statuses of a batch job.
ghost use Rattle.std.specs.Prelude.{◌≡◌};
ghost use Rattle.oe_jobs.specs.Machine as spec;
ghost use Rattle.oe_jobs.specs.Texts.{Finds, status_text};

/// The status of a batch job (openEO API, batch jobs).
#[derive(Clone, Copy, PartialEq, Eq)]
pub enum Status {
    Created,
    Queued,
    Running,
    Canceled,
    Finished,
    Error,
}

impl Status {
    /// The status as the openEO API spells it.
    pub fn as_str(self) -> &'static str
        ensures { result.now ≡ status_text self }
    {
        match self {
            Status::Created => "created",
            Status::Queued => "queued",
            Status::Running => "running",
            Status::Canceled => "canceled",
            Status::Finished => "finished",
            Status::Error => "error",
        }
    }

    /// The status that a text spells so, letter case included. None exactly where it spells none.
    pub fn of(text: &str) -> Option<Status>
        ensures { Finds (λ status. text.now ≡ status_text status) result }
    {
        match text {
            "created" => Some(Status::Created),
            "queued" => Some(Status::Queued),
            "running" => Some(Status::Running),
            "canceled" => Some(Status::Canceled),
            "finished" => Some(Status::Finished),
            "error" => Some(Status::Error),
            _ => None,
        }
    }

    /// Whether the job waits to be run or runs.
    pub fn is_busy(self) -> bool
        ensures { result ≡ spec.is_busy self }
    {
        match self {
            Status::Queued | Status::Running => true,
            Status::Created | Status::Canceled | Status::Finished | Status::Error => false,
        }
    }

    /// Whether the job waits to be run.
    pub fn is_queued(self) -> bool
        ensures { result ≡ spec.is_queued self }
    {
        match self {
            Status::Queued => true,
            Status::Created
            | Status::Running
            | Status::Canceled
            | Status::Finished
            | Status::Error => false,
        }
    }

    /// Whether the job runs.
    pub fn is_running(self) -> bool
        ensures { result ≡ spec.is_running self }
    {
        match self {
            Status::Running => true,
            Status::Created
            | Status::Queued
            | Status::Canceled
            | Status::Finished
            | Status::Error => false,
        }
    }
}
