//! The step of a line.
ghost use Rattle.std.specs.Prelude.{◌≡◌, IfOk, map};
ghost use Rattle.std.specs.List.{concat};
ghost use Rattle.query_http.specs.Paths.{endpoint_rows};
ghost use Rattle.step_lines.specs.Steps.{alone, nonempty, put_of, one_number, read_of, step_by, step_of, step_in, two_numbers, two_words};
ghost use Rattle.step_lines.specs.ReadResults.{ReadsStep};
ghost use Rattle.step_lines.specs.Words.{words_of as words_in};

use crate::batch::read_batch;
use crate::fault::StepFault;
use crate::stop::Stop;
use crate::target::{read_query, read_target};
use crate::verb::{Verb, read_verb};
use crate::words::{read_number, words_of};
use matchit::Router;
use query_http::Endpoint;
use schedule_core::Step;
use std::alloc::{AllocError, Global};

/// Joins the pieces of a text; an empty text is a bad step.
fn joined(alloc: Global, pieces: &[&[u8]]) -> Result<Vec<u8>, Stop>
    ensures { ReadsStep (λ v. v.items) result (nonempty (concat (map (λ w. w.now) pieces.now))) }
{
    let text = pieces.concat(alloc)?;
    if text.is_empty() {
        return Err(Stop::Fault(StepFault::BadStep));
    }
    Ok(text)
}

/// Reads the `put` of a seat and a batch.
#[tactic(auto, unfolding(crate::specs::Steps::put_by))]
fn read_put(alloc: Global, words: &[&[u8]]) -> Result<Step, Stop>
    ensures { ReadsStep (λ s. s) result (put_of (map (λ w. w.now) words.now)) }
{
    let [seat, hex @ ..] = words else {
        return Err(Stop::Fault(StepFault::BadStep));
    };
    let seat = read_number(seat)?;
    let text = joined(alloc, hex)?;
    let batch = read_batch(alloc, text.as_slice())?;
    Ok(Step::Put { seat, batch })
}

/// Reads a step of one word, after which no word may follow.
fn read_alone(step: Step, words: &[&[u8]]) -> Result<Step, StepFault>
    ensures { result ≡ alone step (map (λ w. w.now) words.now) }
{
    if words.is_empty() {
        Ok(step)
    } else {
        Err(StepFault::BadStep)
    }
}

/// Reads the number that is the only word.
fn read_reader(words: &[&[u8]]) -> Result<u32, StepFault>
    ensures { result ≡ one_number (map (λ w. w.now) words.now) }
{
    match words {
        [reader] => read_number(reader),
        _ => Err(StepFault::BadStep),
    }
}

/// Returns two words, and no more.
fn two_words<'l>(words: &[&'l [u8]]) -> Result<(&'l [u8], &'l [u8]), Stop>
    ensures { ReadsStep (λ p. (p.0.now, p.1.now)) result (two_words (map (λ w. w.now) words.now)) }
{
    match words {
        [first, second] => Ok((first, second)),
        _ => Err(Stop::Fault(StepFault::BadStep)),
    }
}

/// Reads the numbers that are the only two words.
#[tactic(auto, unfolding(crate::specs::Steps::two_numbers))]
fn two_numbers(words: &[&[u8]]) -> Result<(u32, u32), Stop>
    ensures { ReadsStep (λ p. p) result (two_numbers (map (λ w. w.now) words.now)) }
{
    let (first, second) = two_words(words)?;
    let first = read_number(first)?;
    let second = read_number(second)?;
    Ok((first, second))
}

/// Reads the `read` of a reader and a target.
#[tactic(auto, unfolding(crate::specs::Steps::read_of))]
fn read_read(alloc: Global, router: &Router<Endpoint>, words: &[&[u8]]) -> Result<Step, Stop>
    requires { router.now ≡ endpoint_rows }
    ensures { ReadsStep (λ s. s) result (read_of (map (λ w. w.now) words.now)) }
{
    let (reader, target) = two_words(words)?;
    let reader = read_number(reader)?;
    let target = read_target(target)?;
    let query = read_query(alloc, router, target)?;
    Ok(Step::Read { reader, query })
}

/// Reads the step of a first word and the words after it.
fn read_by(
    alloc: Global,
    router: &Router<Endpoint>,
    verb: Verb,
    words: &[&[u8]],
) -> Result<Step, Stop>
    requires { router.now ≡ endpoint_rows }
    ensures { ReadsStep (λ s. s) result (step_by verb (map (λ w. w.now) words.now)) }
{
    match verb {
        Verb::Put => read_put(alloc, words),
        Verb::Limit => {
            let (seat, limit) = two_numbers(words)?;
            Ok(Step::Limit { seat, limit })
        }
        Verb::Take => Ok(read_alone(Step::Take, words)?),
        Verb::Publish => Ok(read_alone(Step::Publish, words)?),
        Verb::Enter => {
            let reader = read_reader(words)?;
            Ok(Step::Enter { reader })
        }
        Verb::Read => read_read(alloc, router, words),
        Verb::Learn => {
            let (reader, publish) = two_numbers(words)?;
            Ok(Step::Learn { reader, publish })
        }
        Verb::Leave => {
            let reader = read_reader(words)?;
            Ok(Step::Leave { reader })
        }
    }
}

/// Reads the step of a line's words.
fn read_words(alloc: Global, router: &Router<Endpoint>, words: &[&[u8]]) -> Result<Step, Stop>
    requires { router.now ≡ endpoint_rows }
    ensures { ReadsStep (λ s. s) result (step_of (map (λ w. w.now) words.now)) }
{
    let [first, words @ ..] = words else {
        return Err(Stop::Fault(StepFault::BadStep));
    };
    let verb = read_verb(first)?;
    read_by(alloc, router, verb, words)
}

/// Reads the step of a line of text.
fn read_text(
    alloc: Global,
    router: &Router<Endpoint>,
    line: &[u8],
) -> Result<Result<Step, StepFault>, AllocError>
    requires { router.now ≡ endpoint_rows }
    ensures { IfOk result (λ step. step ≡ step_of (words_in line.now)) }
{
    let words = words_of(alloc, line)?;
    match read_words(alloc, router, words.as_slice()) {
        Ok(step) => Ok(Ok(step)),
        Err(Stop::Fault(fault)) => Ok(Err(fault)),
        Err(Stop::Memory) => Err(AllocError),
    }
}

/// Returns the step of a line, or why it is none. The line is without its end, and can be any bytes; bytes that are
/// no UTF-8 are a bad step, whatever the first word is.
///
/// [`StepFault::BadStep`] is reported before the other faults; then, for a target, [`StepFault::NoSuchPath`] before
/// [`StepFault::BadParameter`].
///
/// # Errors
///
/// Out of memory, and nothing else.
pub fn read_step(
    alloc: Global,
    router: &Router<Endpoint>,
    line: &[u8],
) -> Result<Result<Step, StepFault>, AllocError>
    requires { router.now ≡ endpoint_rows }
    ensures { IfOk result (λ step. step ≡ step_in line.now) }
{
    match str::from_utf8(line) {
        Ok(_) => read_text(alloc, router, line),
        Err(_) => Ok(Err(StepFault::BadStep)),
    }
}
