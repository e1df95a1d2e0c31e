// Why a step of a request is refused.
ghost use Rattle.std.specs.Prelude.{◌≡◌};
ghost use Rattle.oe_routes.specs.Rejections.{refusal_of, rejection_of, rejection_of_graph};
ghost use Rattle.oe_routes.specs.declared.refusal.Refusal.TheVariants as refusal;
ghost use Rattle.oe_routes.specs.declared.refusal.Rejection.TheVariants as rejection;

use oe_graph::{Fault, Refusal as GraphRefusal};
use oe_memory::OutOfMemory;
use oe_pages::QueryFail;
use oe_replies::ReplyCode;
use std::alloc::AllocError;

/// A code, or out of memory.
#[derive(Clone, Copy, PartialEq, Eq)]
pub enum Refusal {
    Code(ReplyCode),
    OutOfMemory,
}

impl From<AllocError> for Refusal {
    ghost from_gives = { λ _ e. e ≡ refusal.OutOfMemory };

    fn from(_error: AllocError) -> Refusal {
        Refusal::OutOfMemory
    }
}

impl From<OutOfMemory> for Refusal {
    ghost from_gives = { λ _ e. e ≡ refusal.OutOfMemory };

    fn from(_error: OutOfMemory) -> Refusal {
        Refusal::OutOfMemory
    }
}

impl From<QueryFail> for Refusal {
    ghost from_gives = { λ fail e. e ≡ refusal_of fail };

    fn from(fail: QueryFail) -> Refusal {
        match fail {
            QueryFail::Invalid => Refusal::Code(ReplyCode::QueryInvalid),
            QueryFail::OutOfMemory => Refusal::OutOfMemory,
        }
    }
}

/// Why a request is refused: with a code, or with the least fault of a graph.
#[derive(Drop)]
pub enum Rejection {
    Code(ReplyCode),
    Fault(Fault),
    OutOfMemory,
}

impl From<Refusal> for Rejection {
    ghost from_gives = { λ refusal e. e ≡ rejection_of refusal };

    fn from(refusal: Refusal) -> Rejection {
        match refusal {
            Refusal::Code(code) => Rejection::Code(code),
            Refusal::OutOfMemory => Rejection::OutOfMemory,
        }
    }
}

impl From<OutOfMemory> for Rejection {
    ghost from_gives = { λ _ e. e ≡ rejection.OutOfMemory };

    fn from(_error: OutOfMemory) -> Rejection {
        Rejection::OutOfMemory
    }
}

impl From<QueryFail> for Rejection {
    ghost from_gives = { λ fail e. e ≡ rejection_of (refusal_of fail) };

    fn from(fail: QueryFail) -> Rejection {
        match fail {
            QueryFail::Invalid => Rejection::Code(ReplyCode::QueryInvalid),
            QueryFail::OutOfMemory => Rejection::OutOfMemory,
        }
    }
}

impl From<GraphRefusal> for Rejection {
    ghost from_gives = { λ refusal e. e ≡ rejection_of_graph refusal };

    fn from(refusal: GraphRefusal) -> Rejection {
        match refusal {
            GraphRefusal::Fault(fault) => Rejection::Fault(fault),
            GraphRefusal::OutOfMemory => Rejection::OutOfMemory,
        }
    }
}
