// The codes of refusals.
use oe_graph::Code;
use oe_lines::Fault;
use oe_replies::ReplyCode;

/// The codes that are none of a graph's.
pub(crate) static CODES: [ReplyCode; 34] = [
    ReplyCode::HeadTooLong,
    ReplyCode::RequestMalformed,
    ReplyCode::CodingUnsupported,
    ReplyCode::BodyTooLong,
    ReplyCode::RequestTruncated,
    ReplyCode::NotFound,
    ReplyCode::MethodUnsupported,
    ReplyCode::AuthenticationRequired,
    ReplyCode::TokenInvalid,
    ReplyCode::ProcessIdInvalid,
    ReplyCode::BodyInvalid,
    ReplyCode::JobFieldInvalid,
    ReplyCode::NumberUnsupported,
    ReplyCode::ProcessTooLong,
    ReplyCode::QueryInvalid,
    ReplyCode::CollectionNotFound,
    ReplyCode::JobNotFound,
    ReplyCode::ProcessNotFound,
    ReplyCode::AssetNotFound,
    ReplyCode::JobNotStarted,
    ReplyCode::JobNotFinished,
    ReplyCode::JobLocked,
    ReplyCode::JobLimit,
    ReplyCode::AssetLimit,
    ReplyCode::ProcessLimit,
    ReplyCode::PredefinedProcessExists,
    ReplyCode::PlanTooLarge,
    ReplyCode::NumberOverflow,
    ReplyCode::ReadFault,
    ReplyCode::SourceDamaged,
    ReplyCode::SpoolFault,
    ReplyCode::SpoolDamaged,
    ReplyCode::StoreFault,
    ReplyCode::OutOfMemory,
];

/// Some codes of graphs, one a phase and that of a collection.
pub(crate) static GRAPH_CODES: [ReplyCode; 6] = [
    ReplyCode::Graph(Code::InputTooLong),
    ReplyCode::Graph(Code::ResultNodeCount),
    ReplyCode::Graph(Code::ProcessRecursive),
    ReplyCode::Graph(Code::GraphTooLarge),
    ReplyCode::Graph(Code::GraphCycle),
    ReplyCode::Graph(Code::CollectionNotFound),
];

/// The one of these codes that a word spells.
pub(crate) fn code_among(codes: &[ReplyCode], word: &str) -> Result<ReplyCode, Fault> {
    for code in codes {
        if code.as_str() == word {
            return Ok(*code);
        }
    }
    Err(Fault::Line)
}
