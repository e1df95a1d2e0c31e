// Books, jobs, changes and verdicts in words.
use oe_dims::Text;
use oe_jobs::{Asset, Book, Change, Job, JobFault, LogEntry, Outcome, Owned, Ran};
use oe_lines::{Answers, end_line, push, push_all, push_number};

/// What a command is answered.
pub(crate) fn outcome_word(outcome: &Outcome) -> &str {
    match outcome {
        Outcome::Created(id) => id.as_str(),
        Outcome::Queued => "queued",
        Outcome::Done => "done",
        Outcome::Refused(fault) => fault_word(*fault),
    }
}

fn fault_word(fault: JobFault) -> &'static str {
    match fault {
        JobFault::JobNotFound => "JobNotFound",
        JobFault::JobLocked => "JobLocked",
        JobFault::JobLimit => "JobLimit",
        JobFault::ProcessNotFound => "ProcessNotFound",
        JobFault::ProcessLimit => "ProcessLimit",
        JobFault::PredefinedProcessExists => "PredefinedProcessExists",
    }
}

/// Which change it is.
pub(crate) fn change_word(change: &Option<Change>) -> &'static str {
    match change {
        None => "unchanged",
        Some(Change::PutJob { .. }) => "put",
        Some(Change::AddAsset { .. }) => "added",
        Some(Change::DropJob { .. }) => "dropped",
        Some(Change::PutProcess { .. }) => "stored",
        Some(Change::DropProcess { .. }) => "forgotten",
    }
}

/// Appends the next number of a book, its jobs and its stored processes.
pub(crate) fn spell_book(book: &Book, answers: &mut Answers) {
    push_number(" | ", book.next, answers);
    spell_jobs(&book.jobs, answers);
    spell_processes(&book.processes, answers);
    end_line(answers);
}

fn spell_jobs(jobs: &[Job], answers: &mut Answers) {
    for job in jobs {
        push(" | ", answers);
        spell_job(job, answers);
    }
}

fn spell_processes(processes: &[Owned], answers: &mut Answers) {
    for owned in processes {
        push_all(
            &[" | ", owned.user.as_str(), "/", owned.process.id.as_str()],
            answers,
        );
    }
}

/// Appends a job: its id, user, status, level, when it was created and changed, its turn, how many stored processes it
/// runs, its title and description where it has them, its assets and its logs.
pub(crate) fn spell_job(job: &Job, answers: &mut Answers) {
    push_all(&[job.id.as_str(), " ", job.user.as_str()], answers);
    push_all(
        &[" ", job.status.as_str(), " ", job.level.as_str()],
        answers,
    );
    push_number(" ", job.created, answers);
    push_number(" ", job.updated, answers);
    push_number(" turn ", job.turn, answers);
    spell_ran(&job.ran, answers);
    spell_text(" title ", &job.title, answers);
    spell_text(" description ", &job.description, answers);
    spell_assets(&job.assets, answers);
    spell_logs(&job.logs, answers);
}

fn spell_ran(ran: &Option<Ran>, answers: &mut Answers) {
    if let Some(ran) = ran {
        push_number(" runs ", ran.stored.len(), answers);
    }
}

/// Appends a name and a text, where there is one.
fn spell_text(name: &str, text: &Option<Text>, answers: &mut Answers) {
    if let Some(text) = text {
        push_all(&[name, text.as_str()], answers);
    }
}

fn spell_assets(assets: &[Asset], answers: &mut Answers) {
    for asset in assets {
        push_all(&[" ", asset.name.as_str()], answers);
    }
}

/// Appends log entries: their levels, their codes where they have them, and their messages.
fn spell_logs(logs: &[LogEntry], answers: &mut Answers) {
    for entry in logs {
        push_all(&[" ", entry.level.as_str()], answers);
        spell_text("=", &entry.code, answers);
        push_all(&[":", entry.message.as_str()], answers);
    }
}
