// The codes of refused requests.
ghost use Rattle.std.specs.Prelude.{◌≡◌, IsSome};
ghost use Rattle.http.specs.StatusCode.{reason_phrase};
ghost use Rattle.oe_replies.specs.Codes as spec;

use oe_graph::Code;

/// Why a request was refused, as its error body names it (openEO API, error handling).
#[derive(Clone, Copy, PartialEq, Eq)]
pub enum ReplyCode {
    // The bytes of the request.
    HeadTooLong,
    RequestMalformed,
    CodingUnsupported,
    BodyTooLong,
    RequestTruncated,
    // Its path, its method and its user.
    NotFound,
    MethodUnsupported,
    AuthenticationRequired,
    TokenInvalid,
    // Its body and its query.
    ProcessIdInvalid,
    BodyInvalid,
    JobFieldInvalid,
    /// A fault of a graph.
    Graph(Code),
    NumberUnsupported,
    ProcessTooLong,
    QueryInvalid,
    // What it names.
    /// No collection of the id of the path is mounted.
    CollectionNotFound,
    JobNotFound,
    ProcessNotFound,
    AssetNotFound,
    // What the job book allows.
    JobNotStarted,
    JobNotFinished,
    JobLocked,
    JobLimit,
    AssetLimit,
    ProcessLimit,
    PredefinedProcessExists,
    // A run that is made at once.
    PlanTooLarge,
    NumberOverflow,
    ReadFault,
    SourceDamaged,
    SpoolFault,
    SpoolDamaged,
    // The keeper of the book.
    StoreFault,
    OutOfMemory,
}

impl ReplyCode {
    /// The HTTP status, which has a phrase (RFC 9110, section 15).
    pub fn status(self) -> u16
        ensures value { result ≡ spec.status_of self }
        ensures phrase { IsSome (reason_phrase result) }
    {
        match self {
            ReplyCode::RequestMalformed
            | ReplyCode::RequestTruncated
            | ReplyCode::ProcessIdInvalid
            | ReplyCode::BodyInvalid
            | ReplyCode::JobFieldInvalid
            | ReplyCode::Graph(_)
            | ReplyCode::NumberUnsupported
            | ReplyCode::ProcessTooLong
            | ReplyCode::QueryInvalid
            | ReplyCode::JobNotStarted
            | ReplyCode::JobNotFinished
            | ReplyCode::JobLocked
            | ReplyCode::JobLimit
            | ReplyCode::AssetLimit
            | ReplyCode::ProcessLimit
            | ReplyCode::PredefinedProcessExists
            | ReplyCode::PlanTooLarge
            | ReplyCode::NumberOverflow => 400,
            ReplyCode::AuthenticationRequired => 401,
            ReplyCode::TokenInvalid => 403,
            ReplyCode::NotFound
            | ReplyCode::CollectionNotFound
            | ReplyCode::JobNotFound
            | ReplyCode::ProcessNotFound
            | ReplyCode::AssetNotFound => 404,
            ReplyCode::MethodUnsupported => 405,
            ReplyCode::BodyTooLong => 413,
            ReplyCode::CodingUnsupported => 415,
            ReplyCode::HeadTooLong => 431,
            ReplyCode::ReadFault
            | ReplyCode::SourceDamaged
            | ReplyCode::SpoolFault
            | ReplyCode::SpoolDamaged
            | ReplyCode::StoreFault => 500,
            ReplyCode::OutOfMemory => 503,
        }
    }

    /// The code as error bodies spell it.
    pub fn as_str(self) -> &'static str
        ensures { result.now ≡ spec.name_of self }
    {
        match self {
            ReplyCode::HeadTooLong => "HeadTooLong",
            ReplyCode::RequestMalformed => "RequestMalformed",
            ReplyCode::CodingUnsupported => "CodingUnsupported",
            ReplyCode::BodyTooLong => "BodyTooLong",
            ReplyCode::RequestTruncated => "RequestTruncated",
            ReplyCode::NotFound => "NotFound",
            ReplyCode::MethodUnsupported => "MethodUnsupported",
            ReplyCode::AuthenticationRequired => "AuthenticationRequired",
            ReplyCode::TokenInvalid => "TokenInvalid",
            ReplyCode::ProcessIdInvalid => "ProcessIdInvalid",
            ReplyCode::BodyInvalid => "BodyInvalid",
            ReplyCode::JobFieldInvalid => "JobFieldInvalid",
            ReplyCode::Graph(code) => code.as_str(),
            ReplyCode::NumberUnsupported => "NumberUnsupported",
            ReplyCode::ProcessTooLong => "ProcessTooLong",
            ReplyCode::QueryInvalid => "QueryInvalid",
            ReplyCode::CollectionNotFound => "CollectionNotFound",
            ReplyCode::JobNotFound => "JobNotFound",
            ReplyCode::ProcessNotFound => "ProcessNotFound",
            ReplyCode::AssetNotFound => "AssetNotFound",
            ReplyCode::JobNotStarted => "JobNotStarted",
            ReplyCode::JobNotFinished => "JobNotFinished",
            ReplyCode::JobLocked => "JobLocked",
            ReplyCode::JobLimit => "JobLimit",
            ReplyCode::AssetLimit => "AssetLimit",
            ReplyCode::ProcessLimit => "ProcessLimit",
            ReplyCode::PredefinedProcessExists => "PredefinedProcessExists",
            ReplyCode::PlanTooLarge => "PlanTooLarge",
            ReplyCode::NumberOverflow => "NumberOverflow",
            ReplyCode::ReadFault => "ReadFault",
            ReplyCode::SourceDamaged => "SourceDamaged",
            ReplyCode::SpoolFault => "SpoolFault",
            ReplyCode::SpoolDamaged => "SpoolDamaged",
            ReplyCode::StoreFault => "StoreFault",
            ReplyCode::OutOfMemory => "OutOfMemory",
        }
    }

    /// Whether a message has a detail behind the code: the node of a graph's fault, the number of a plan or of a cell, or
    /// the collection and the number of what is damaged.
    pub fn has_detail(self) -> bool
        ensures { result ≡ spec.has_detail self }
    {
        match self {
            ReplyCode::Graph(_)
            | ReplyCode::PlanTooLarge
            | ReplyCode::NumberOverflow
            | ReplyCode::SourceDamaged
            | ReplyCode::SpoolDamaged => true,
            _ => false,
        }
    }
}
