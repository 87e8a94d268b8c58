//! Takes requests from the bytes received: a head, what it asks, and the body piece by piece. Nothing is read here.

ghost use Rattle.std.specs.Prelude.{◌≡◌, ℕ, List, [], ◌++◌, Some, IfOk, OnErr};
ghost use Rattle.batch_codec.specs.BatchReading.{decoded};
ghost use Rattle.batch_feeder.specs.FeederAnswers.{answers};
ghost use Rattle.query_http.specs.Paths.{endpoint_rows};
ghost use Rattle.http_requests.specs.PartialRequests.{IsPart, HasSeen, HasLooked, AwaitsIfMore, reader_moment, ContinuesBody};
ghost use Rattle.http_requests.specs.ReceivedBytes.{put_back};
ghost use Rattle.http_session.specs.Verdicts.{BeginsWithQuery};
ghost use Rattle.http_session.specs.Questions.{JudgesRead, Decides};
ghost use Rattle.http_session.specs.declared.question.Question.{Question as QuestionValue};
ghost use Rattle.http_session.specs.IncomingRequests.{before_a_request, JudgesBy, Carries, IsPartOf, HasReceived, HasLookedBy, IsBodyStage};
ghost use Rattle.http_session.specs.IncomingRequests.{PartComes, AwaitsInputIfMore};
ghost use Rattle.http_session.specs.IncomingRequests.{FinishesAs, ReceivesOf, AwaitsIfNone};

use crate::question::{Question, question_of};
use crate::verdict::{ErrorReply, Verdict};
use batch_codec::DecodeError;
use batch_feeder::Feeder;
use http_requests::{
    BodyLength, BodyReader, BodyStatus, HeadWait, ParseStatus, ReadBuffer, RequestFault, Sink,
};
use matchit::Router;
use query_http::Endpoint;
use std::alloc::{AllocError, Global};
use std::boxed::Box;
use std::mem;

/// What a client sent.
#[derive(Debug, Drop)]
pub(crate) enum Incoming {
    /// A request.
    Request {
        verdict: Verdict,
        /// It asks to close the session.
        closes: bool,
    },
    /// The input has ended between two requests.
    EndOfInput,
    /// No request, for this reason.
    NoRequest(RequestFault),
}

/// Discards a body.
#[derive(Clone, Copy, Debug)]
struct Discard;

impl Sink for Discard {
    ghost use Rattle.http_session.specs.BodySinks.{Passes};
    ghost use Rattle.http_session.specs.BodySinkLaws.{passes_nothing, passes_joined};

    ghost takes = { Passes };

    fn put(&mut self, _piece: &[u8]) {}

    ghost takes_nothing = { passes_nothing };

    ghost takes_joined = { passes_joined };
}

/// Decodes a body as a batch. A fault that is found early is kept, and returned at the end.
#[derive(Drop)]
pub(crate) struct BatchBody {
    /// On the heap, so that a session without a body is small.
    feeder: Box<Feeder>,
    alloc: Global,
}

impl BatchBody {
    /// Creates a decoder before the first byte.
    fn new(alloc: Global) -> Result<Self, AllocError>
        ensures { IfOk result (λ b. (w : List ℕ) → answers b.feeder.value w ≡ decoded w) }
    {
        let feeder = Box::new(alloc, Feeder::new(alloc))?;
        Ok(BatchBody { feeder, alloc })
    }

    /// Returns the verdict once the body is complete.
    fn verdict(self) -> Verdict
        ensures { JudgesRead (answers self.feeder.value []) result }
    {
        match Box::into_inner(self.feeder).finish() {
            Ok(batch) => Verdict::Submit(batch),
            Err(DecodeError::Memory) => Verdict::Reject(ErrorReply::NoMemory),
            Err(fault) => Verdict::Reject(ErrorReply::BadBatch(fault)),
        }
    }
}

impl Sink for BatchBody {
    ghost use Rattle.batch_feeder.specs.FeederAnswers.{answers};
    ghost use Rattle.http_session.specs.BodySinks.{Follows};
    ghost use Rattle.http_session.specs.BodySinkLaws.{follows_nothing, follows_joined};

    ghost takes = { λ s w t. Follows (answers s.feeder.value) w (answers t.feeder.value) };

    fn put(&mut self, piece: &[u8]) {
        // The feeder keeps its fault, and returns it from then on.
        let _ = self.feeder.feed(self.alloc, piece);
    }

    ghost takes_nothing = { λ s. follows_nothing (answers s.feeder.value) };

    ghost takes_joined = { λ s t u front back. follows_joined (answers s.feeder.value) (answers t.feeder.value)
        (answers u.feeder.value) front back };
}

/// What is done with a body. A batch is discarded if memory ran out before its body.
#[derive(Drop)]
pub(crate) enum BodySink {
    /// It is discarded, and this is the verdict.
    Settled(Verdict),
    Batch(BatchBody),
}

/// A request whose head was taken, and a part of its body.
#[derive(Drop)]
pub(crate) struct PartialRequest {
    reader: BodyReader,
    sink: BodySink,
    closes: bool,
}

/// What a session awaits.
#[derive(Drop)]
pub(crate) enum SessionStage {
    /// The head of the next request.
    Head(HeadWait),
    /// More of a body.
    Body(PartialRequest),
}

impl PartialRequest {
    /// Creates a request before the first byte of its body.
    fn new(alloc: Global, question: Question, body_length: BodyLength, closes: bool) -> Self
        ensures part { IsPart body_length [] [] result.reader }
        ensures looked { (held : List ℕ) → HasLooked result.reader held }
        ensures judged { JudgesBy question result.sink [] }
        ensures closes { result.closes ≡ closes }
    {
        let sink = match question {
            Question::Settled(verdict) => BodySink::Settled(verdict),
            Question::Batch => match BatchBody::new(alloc) {
                Ok(body) => BodySink::Batch(body),
                Err(_) => BodySink::Settled(Verdict::Reject(ErrorReply::NoMemory)),
            },
        };
        PartialRequest {
            reader: BodyReader::new(body_length),
            sink,
            closes,
        }
    }

    /// Takes the received part of the body. A batch is decoded piece by piece.
    fn take_from(&mut self, received: &mut ReadBuffer) -> BodyStatus
        requires looked { HasLooked self.old.reader received.old.held }
        ensures took { ContinuesBody Carries
            (reader_moment self.old.reader received.old self.old.sink)
            (reader_moment self.new.reader received.new self.new.sink) (Some result) }
        ensures awaits { AwaitsIfMore self.new.reader received.new.held result }
        ensures closes { self.new.closes ≡ self.old.closes }
    {
        match &mut self.sink {
            BodySink::Settled(_) => self.reader.take_from(received, &mut Discard),
            BodySink::Batch(body) => self.reader.take_from(received, body),
        }
    }

    /// Takes the received part of the body. If the input has ended, an incomplete body is malformed.
    fn take_part(&mut self, received: &mut ReadBuffer) -> BodyStatus
        requires looked { HasLooked self.old.reader received.old.held }
        ensures part { (text : List ℕ) → IsPartOf self.old text →
            PartComes (put_back text received.old) received.new self.new result }
        ensures waits { AwaitsInputIfMore received.new self.new result }
    {
        // For the prover: the match takes the cases of the clauses of `take_from` apart, which give the clause `part`.
        match self.take_from(received) {
            BodyStatus::Complete => BodyStatus::Complete,
            BodyStatus::Invalid(fault) => BodyStatus::Invalid(fault),
            BodyStatus::Partial if received.has_ended() => BodyStatus::Invalid(RequestFault::Body),
            BodyStatus::Partial => BodyStatus::Partial,
        }
    }

    /// Returns the verdict once the body is complete.
    fn verdict(self) -> Verdict
        ensures { (question : QuestionValue) (body : List ℕ) → JudgesBy question self.sink body →
            Decides question body result }
    {
        match self.sink {
            BodySink::Settled(verdict) => verdict,
            BodySink::Batch(body) => body.verdict(),
        }
    }
}

impl SessionStage {
    /// Creates the stage before the first byte of a request.
    pub(crate) fn new() -> Self
        ensures { result ≡ before_a_request }
    {
        SessionStage::Head(HeadWait::new())
    }
}

/// Replaces a value.
fn assign<V: Drop>(place: &mut V, value: V)
    ensures { place.new ≡ value }
{
    // For the prover: the call is generic in the value, so that the old one is dropped without its type being opened.
    *place = value;
}

/// Returns a request whose body is complete, and goes to the next stage.
fn finish(stage: &mut SessionStage) -> Incoming
    requires body { IsBodyStage stage.old }
    ensures finished { FinishesAs stage.old result }
    ensures next { stage.new ≡ before_a_request }
{
    match mem::replace(stage, SessionStage::new()) {
        SessionStage::Body(request) => {
            let closes = request.closes;
            Incoming::Request {
                verdict: request.verdict(),
                closes,
            }
        }
        SessionStage::Head(_) => unreachable!(),
    }
}

/// Takes the received part of a body.
fn receive_body(stage: &mut SessionStage, received: &mut ReadBuffer) -> Option<Incoming>
    requires body { IsBodyStage stage.old }
    requires looked { HasLookedBy stage.old received.old.held }
    ensures incoming { (text : List ℕ) → HasReceived stage.old text →
        ReceivesOf (put_back text received.old) received.new stage.new result }
    ensures waits { AwaitsIfNone received.new stage.new result }
{
    let SessionStage::Body(request) = stage else {
        unreachable!()
    };
    match request.take_part(received) {
        BodyStatus::Complete => Some(finish(stage)),
        BodyStatus::Invalid(fault) => Some(Incoming::NoRequest(fault)),
        BodyStatus::Partial => None,
    }
}

/// Takes a head, if it is complete, and the received part of the body after it.
///
/// # Errors
///
/// Out of memory, for a query.
#[tactic(auto, using(crate::proofs::IncomingParts::ends_in_head, crate::proofs::IncomingParts::no_head_comes))]
fn receive_head(
    alloc: Global,
    router: &Router<Endpoint>,
    mut wait: HeadWait,
    stage: &mut SessionStage,
    received: &mut ReadBuffer,
) -> Result<Option<Incoming>, AllocError>
    requires routes { router.now ≡ endpoint_rows }
    requires seen { HasSeen wait received.old.held }
    ensures incoming { IfOk result (ReceivesOf received.old received.new stage.new) }
    ensures waits { IfOk result (AwaitsIfNone received.new stage.new) }
    ensures err { OnErr result (BeginsWithQuery received.old.held) }
{
    match wait.look(received.as_slice()) {
        ParseStatus::Complete(found) => {
            let head = &received.as_slice()[..found.len];
            let question = question_of(alloc, router, head, &found.request)?;
            received.take(found.len);
            let closes = found.request.closes;
            let partial = PartialRequest::new(alloc, question, found.body_length, closes);
            assign(stage, SessionStage::Body(partial));
            Ok(receive_body(stage, received))
        }
        ParseStatus::Partial if !received.has_ended() => {
            assign(stage, SessionStage::Head(wait));
            Ok(None)
        }
        ParseStatus::Partial if received.as_slice().is_empty() => Ok(Some(Incoming::EndOfInput)),
        ParseStatus::Partial | ParseStatus::Invalid => Ok(Some(Incoming::NoRequest(
            RequestFault::Head,
        ))),
    }
}

/// Takes the next request, of which a part may have been taken before: its head and its body. No body is held as a
/// whole. Returns `None` if more of it is awaited.
///
/// # Errors
///
/// Out of memory, for a query.
pub(crate) fn receive(
    alloc: Global,
    router: &Router<Endpoint>,
    stage: &mut SessionStage,
    received: &mut ReadBuffer,
) -> Result<Option<Incoming>, AllocError>
    requires routes { router.now ≡ endpoint_rows }
    requires looked { HasLookedBy stage.old received.old.held }
    ensures incoming { IfOk result (λ incoming. (text : List ℕ) → HasReceived stage.old text →
        ReceivesOf (put_back text received.old) received.new stage.new incoming) }
    ensures waits { IfOk result (AwaitsIfNone received.new stage.new) }
    ensures err { OnErr result ((text : List ℕ) → HasReceived stage.old text →
        BeginsWithQuery (text ++ received.old.held)) }
{
    match stage {
        SessionStage::Head(wait) => {
            let wait = *wait;
            receive_head(alloc, router, wait, stage, received)
        }
        SessionStage::Body(_) => Ok(receive_body(stage, received)),
    }
}
