// The codes of requests that could not be read, and of commands that the job book refuses.
ghost use Rattle.std.specs.Prelude.{◌≡◌};
ghost use Rattle.oe_routes.specs.Codes as spec;

use oe_http::RequestRefusal;
use oe_jobs::JobFault;
use oe_replies::ReplyCode;

/// The code with which bytes that are no request are answered; none where the link failed, over which nothing can be
/// answered. Takes no memory.
pub fn code_of_refusal(refusal: RequestRefusal) -> Option<ReplyCode>
    ensures { result ≡ spec.code_of_refusal refusal }
{
    match refusal {
        RequestRefusal::Malformed => Some(ReplyCode::RequestMalformed),
        RequestRefusal::HeadTooLong => Some(ReplyCode::HeadTooLong),
        RequestRefusal::BodyTooLong => Some(ReplyCode::BodyTooLong),
        RequestRefusal::CodingUnsupported => Some(ReplyCode::CodingUnsupported),
        RequestRefusal::Truncated => Some(ReplyCode::RequestTruncated),
        RequestRefusal::LinkFailed => None,
        RequestRefusal::OutOfMemory => Some(ReplyCode::OutOfMemory),
    }
}

/// The code of a command that the job book refuses. Takes no memory.
pub fn code_of_fault(fault: JobFault) -> ReplyCode
    ensures { result ≡ spec.code_of_fault fault }
{
    match fault {
        JobFault::JobNotFound => ReplyCode::JobNotFound,
        JobFault::JobLocked => ReplyCode::JobLocked,
        JobFault::JobLimit => ReplyCode::JobLimit,
        JobFault::ProcessNotFound => ReplyCode::ProcessNotFound,
        JobFault::ProcessLimit => ReplyCode::ProcessLimit,
        JobFault::PredefinedProcessExists => ReplyCode::PredefinedProcessExists,
    }
}
