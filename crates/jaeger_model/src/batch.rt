ghost use Rattle.std.specs.Prelude.{◌≡◌, ◌↔◌, IsTrue};
ghost use Rattle.std.specs.Cmp.{decided, partial_equiv_from_equiv};
ghost use Rattle.jaeger_model.specs.Sameness.{same_process, same_batch};
ghost use Rattle.jaeger_model.specs.SameLaws.{same_process-decides, same_batch-decides};

use crate::seq::Seq;
use crate::shared_process::SharedProcess;
use crate::span::Span;
use crate::tag::Tag;
use crate::text::Text;
use std::alloc::AllocError;

/// The spans of one process that a client sends in one request (`Batch` of `jaeger.thrift`).
#[derive(Debug, Drop)]
pub struct Batch {
    pub process: SharedProcess,
    pub spans: Seq<Span>,
    /// The sender's own number for the batch, if it set one.
    pub seq_no: Option<i64>,
}

/// The service that reports the spans, with the tags that all of them share (`Process` of `jaeger.thrift`).
#[derive(Debug, Drop)]
pub struct Process {
    pub service: Text,
    pub tags: Seq<Tag>,
}

impl Clone for Batch {
    ghost is_clone = { λ s t. t ≡ s };

    fn clone(&self) -> Result<Self, AllocError> {
        Ok(Batch {
            process: self.process.clone()?,
            spans: self.spans.clone()?,
            seq_no: self.seq_no,
        })
    }
}

impl Clone for Process {
    ghost is_clone = { λ s t. t ≡ s };

    fn clone(&self) -> Result<Self, AllocError> {
        Ok(Process {
            service: self.service.clone()?,
            tags: self.tags.clone()?,
        })
    }
}

impl PartialEq for Batch {
    ghost eq = { same_batch };

    ghost laws = { partial_equiv_from_equiv (decided same_batch same_batch-decides) };

    fn eq(&self, other: &Batch) -> bool {
        self.seq_no == other.seq_no && self.process == other.process && self.spans == other.spans
    }
}

impl Eq for Batch {
    ghost laws = { decided same_batch same_batch-decides };
}

impl PartialEq for Process {
    ghost eq = { same_process };

    ghost laws = { partial_equiv_from_equiv (decided same_process same_process-decides) };

    fn eq(&self, other: &Process) -> bool {
        self.service == other.service && self.tags == other.tags
    }
}

impl Eq for Process {
    ghost laws = { decided same_process same_process-decides };
}

impl Batch {
    /// Returns whether the batches are equal: the process, the spans in order, and the number. Only tests call it.
    pub fn is_same(&self, other: &Batch) -> bool
        ensures { IsTrue result ↔ (self.now ≡ other.now) }
    {
        self == other
    }
}
