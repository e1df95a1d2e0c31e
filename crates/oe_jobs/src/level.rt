// The levels of log entries.
ghost use Rattle.std.specs.Prelude.{◌≡◌};
ghost use Rattle.oe_jobs.specs.Machine as spec;
ghost use Rattle.oe_jobs.specs.Texts.{Finds, level_text};

/// The level of a log entry (openEO API, logs), the most severe first.
#[derive(Clone, Copy, PartialEq, Eq)]
pub enum Level {
    Error,
    Warning,
    Info,
    Debug,
}

impl Level {
    /// The level as the openEO API spells it.
    pub fn as_str(self) -> &'static str
        ensures { result.now ≡ level_text self }
    {
        match self {
            Level::Error => "error",
            Level::Warning => "warning",
            Level::Info => "info",
            Level::Debug => "debug",
        }
    }

    /// The level that a text spells so, letter case included. None exactly where it spells none.
    pub fn of(text: &str) -> Option<Level>
        ensures { Finds (λ level. text.now ≡ level_text level) result }
    {
        match text {
            "error" => Some(Level::Error),
            "warning" => Some(Level::Warning),
            "info" => Some(Level::Info),
            "debug" => Some(Level::Debug),
            _ => None,
        }
    }

    /// Whether logs of this least level keep an entry: whether the entry is at least as severe.
    pub fn keeps(self, entry: Level) -> bool
        ensures { result ≡ spec.keeps self entry }
    {
        entry.rank() <= self.rank()
    }

    /// How little severe the level is.
    fn rank(self) -> u8
        ensures { result ≡ spec.rank self }
    {
        match self {
            Level::Error => 0,
            Level::Warning => 1,
            Level::Info => 2,
            Level::Debug => 3,
        }
    }
}
