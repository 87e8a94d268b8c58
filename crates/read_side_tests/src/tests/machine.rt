ghost use Rattle.read_side.specs.HeldPasses.{IsInside};

use crate::tests::answers::shown;
use crate::tests::entries::{batch_under, limit_under};
use crate::tests::fixture::{Row, plays};
use crate::tests::rows::answer_to;
use jaeger_model::{Text, TraceId};
use read_side::{Held, Keeper, Pass, Reading, Receipt, StoreName};
use schedule_core::{Outcome, Step, play};
use std::alloc::{AllocError, Global};
use std::hash::RandomState;
use std::mem::drop;
use std::sync::{Arc, Wait};
use std::test::*;
use trace_model::{Answer, Entry, Limits, Query, Refusal, TraceLimit, Work};
use trace_samples::{beside, kept, service_find, submitted};

/// A line of text that says what is seen of a store.
type Line = Vec<u8>;

/// The number of entries that are submitted.
const LAST: u64 = 20;

/// What the readers ask before and after an entry: one kind of query after the other, each twice or three times.
fn question(alloc: Global, before: u64) -> Result<Query, AllocError> {
    let id = TraceId {
        high: 0,
        low: before.saturating_sub(before % 5),
    };
    match before % 8 {
        0 => Ok(Query::Services),
        1 => Ok(Query::Trace { id, raw: false }),
        2 => Ok(Query::Find(service_find(alloc, "a")?)),
        3 => Ok(Query::OperationNames {
            service: Text::from_str(alloc, "a")?,
        }),
        4 => Ok(Query::FindIds(service_find(alloc, "a")?)),
        5 => Ok(Query::Operations {
            service: Text::from_str(alloc, "a")?,
            kind: Text::new(alloc),
        }),
        6 => Ok(Query::Trace { id, raw: true }),
        _ => Ok(Query::Links {
            end_ms: 1_000,
            lookback_ms: 1_000,
        }),
    }
}

/// The step by which a seat submits the work with the number.
fn submit_step(alloc: Global, number: u64) -> Result<Step, Fail> {
    let seat = 0;
    match limit_under(number) {
        Some(limit) => Ok(Step::Limit {
            seat,
            limit: limit.get(),
        }),
        None => {
            let batch = batch_under(alloc, number)?;
            Ok(Step::Put { seat, batch })
        }
    }
}

/// The steps by which a reader enters, reads and leaves.
fn visit(alloc: Global, steps: &mut Vec<Step>, reader: u32, before: u64) -> Result<(), Fail> {
    steps.push(Step::Enter { reader })?;
    ask(alloc, steps, reader, before)?;
    steps.push(Step::Leave { reader })?;
    Ok(())
}

/// The step by which it reads.
fn ask(alloc: Global, steps: &mut Vec<Step>, reader: u32, before: u64) -> Result<(), Fail> {
    let query = question(alloc, before)?;
    steps.push(Step::Read { reader, query })?;
    Ok(())
}

/// Adds the steps by which a machine gets one more entry. Reader 6 is inside before it is taken, while it is
/// pending and until it is published; reader 5 comes while it is pending and after that; reader 7 learns of the
/// publish and comes then.
fn add_steps(alloc: Global, steps: &mut Vec<Step>, before: u64) -> Result<(), Fail> {
    let number = before.saturating_add(1);
    steps.push(Step::Enter { reader: 6 })?;
    steps.push(submit_step(alloc, number)?)?;
    steps.push(Step::Take)?;
    ask(alloc, steps, 6, before)?;
    visit(alloc, steps, 5, before)?;
    steps.push(Step::Publish)?;
    visit(alloc, steps, 5, before)?;
    ask(alloc, steps, 6, before)?;
    steps.push(Step::Leave { reader: 6 })?;
    let publish = u32::try_from(number).unwrap_or(0);
    steps.push(Step::Learn { reader: 7, publish })?;
    visit(alloc, steps, 7, before)
}

fn add_all_steps(alloc: Global, steps: &mut Vec<Step>) -> Result<(), Fail> {
    for before in 0..LAST {
        add_steps(alloc, steps, before)?;
    }
    Ok(())
}

/// The steps of all entries.
fn all_steps(alloc: Global) -> Result<Vec<Step>, Fail> {
    let mut steps = Vec::new(alloc);
    let added = add_all_steps(alloc, &mut steps);
    kept(steps, added)
}

/// The line of what an answer shows.
fn answered(alloc: Global, front: u64, answer: Answer) -> Result<Line, Fail> {
    let text = shown(alloc, answer)?;
    let mut line = format!(in alloc; "{front}: ")?.into_bytes();
    line.extend_from_slice(&text)?;
    Ok(line)
}

/// The line of the judgement of what was submitted: its place, or why it was refused.
fn judged_line(alloc: Global, judged: Result<u64, Refusal>) -> Result<Line, Fail> {
    Ok(format!(in alloc; "judged {judged:?}")?.into_bytes())
}

/// The line of the number of entries that a reader knows that has learnt.
fn learnt(alloc: Global, front: u64) -> Result<Line, Fail> {
    Ok(format!(in alloc; "learnt {front}")?.into_bytes())
}

/// Returns the line of an outcome that is no answer, if it has one. A job that is taken and not refused is published
/// next, as the last one.
fn line_of(
    alloc: Global,
    judged: &mut Option<Result<u64, Refusal>>,
    outcome: &Outcome,
) -> Result<Option<Line>, Fail> {
    match outcome {
        Outcome::Again { place, .. } => *judged = Some(Ok(*place)),
        Outcome::Refused(why) => *judged = Some(Err(*why)),
        Outcome::Published { front } => {
            let said = judged.take().unwrap_or(Ok(*front));
            return Ok(Some(judged_line(alloc, said)?));
        }
        Outcome::Learnt { front } => return Ok(Some(learnt(alloc, *front)?)),
        Outcome::Held { .. } | Outcome::Inside | Outcome::Outside | Outcome::Unknown => {
            return Err("a step that was not made".into());
        }
        _ => {}
    }
    Ok(None)
}

/// Adds the line of this outcome, if it has one.
fn add_line(
    alloc: Global,
    lines: &mut Vec<Line>,
    judged: &mut Option<Result<u64, Refusal>>,
    outcome: Outcome,
) -> Result<(), Fail> {
    let line = match outcome {
        Outcome::Answered { front, answer } => Some(answered(alloc, front, answer)?),
        other => {
            let line = line_of(alloc, judged, &other);
            drop(other);
            line?
        }
    };
    if let Some(line) = line {
        lines.push(line)?;
    }
    Ok(())
}

/// Adds the lines of all of these outcomes.
fn add_lines(alloc: Global, lines: &mut Vec<Line>, outcomes: Vec<Outcome>) -> Result<(), Fail> {
    let mut judged = None;
    for outcome in outcomes {
        add_line(alloc, lines, &mut judged, outcome)?;
    }
    Ok(())
}

/// What is seen of a machine that makes these steps.
fn machine_lines(
    alloc: Global,
    keys: RandomState,
    limits: Limits,
    steps: Vec<Step>,
) -> Result<Vec<Line>, Fail> {
    let outcomes = play(alloc, keys, steps, limits)?;
    let mut lines = Vec::new(alloc);
    let added = add_lines(alloc, &mut lines, outcomes);
    kept(lines, added)
}

/// The reader that is inside while others read and while entries are published.
const STAYING: u32 = 6;

/// Two copies that make the steps of a machine.
#[derive(Drop)]
struct Copies<'a, N: StoreName> {
    keeper: &'a mut Keeper<N>,
    five: &'a mut Pass<N>,
    seven: &'a mut Pass<N>,
    /// The number of entries that were submitted.
    submitted: u64,
    /// The entry that was submitted last, until it is published.
    waiting: Option<Arc<Entry>>,
    /// A receipt of each publish.
    receipts: Vec<Receipt<N>>,
    /// What was judged, answered and learnt.
    lines: Vec<Line>,
}

impl<N: StoreName> Copies<'_, N> {
    fn submit(&mut self, alloc: Global, work: Work) -> Result<(), Fail> {
        self.submitted = self.submitted.saturating_add(1);
        self.waiting = Some(submitted(alloc, 0, self.submitted, work)?);
        Ok(())
    }

    /// Admits the entry that waits.
    fn publish<R: Wait>(&mut self, rt: &R, alloc: Global) -> Result<(), Fail> {
        let entry = self.waiting.take().ok_or("nothing waits")?;
        let judged = answer_to(rt, self.keeper, entry).map(|said| said.1);
        self.lines.push(judged_line(alloc, judged)?)?;
        self.receipts.push(self.keeper.receipt())?;
        Ok(())
    }

    /// Reader 7 learns of a publish.
    fn learn(&mut self, alloc: Global, publish: u32) -> Result<(), Fail> {
        let number = (publish as usize).saturating_sub(1);
        let receipt = self.receipts.get(number).ok_or("no such publish")?;
        self.seven.learn(receipt);
        self.lines.push(learnt(alloc, self.seven.front())?)?;
        Ok(())
    }

    /// A reader enters, reads and leaves.
    fn read(&mut self, alloc: Global, reader: u32, query: &Query) -> Result<(), Fail> {
        let reading = match reader {
            5 => self.five.read(query),
            7 => self.seven.read(query),
            _ => return Err("no such reader".into()),
        };
        self.say(alloc, reading)
    }

    /// Writes what a reading shows.
    fn say(&mut self, alloc: Global, reading: Result<Reading, Refusal>) -> Result<(), Fail> {
        let Reading { front, answer } = reading?;
        self.lines.push(answered(alloc, front, answer)?)?;
        Ok(())
    }

    /// Makes a step. A job that is taken on the machine is judged here when it is published. A reader that doesn't stay
    /// inside enters and leaves by its read.
    fn make<R: Wait>(&mut self, rt: &R, alloc: Global, step: &Step) -> Result<(), Fail> {
        match step {
            Step::Put { batch, .. } => self.submit(alloc, Work::Batch(batch.clone()?)),
            Step::Limit { limit, .. } => {
                let limit = TraceLimit::new(*limit).ok_or("limit")?;
                self.submit(alloc, Work::TraceLimit(limit))
            }
            Step::Publish => self.publish(rt, alloc),
            Step::Learn { publish, .. } => self.learn(alloc, *publish),
            Step::Read { reader, query } => self.read(alloc, *reader, query),
            Step::Take | Step::Enter { .. } | Step::Leave { .. } => Ok(()),
        }
    }

    /// Makes the steps between which no reader stays inside.
    fn make_all<R: Wait>(&mut self, rt: &R, alloc: Global, steps: &[Step]) -> Result<(), Fail> {
        for step in steps {
            self.make(rt, alloc, step)?;
        }
        Ok(())
    }

    /// Makes the steps while the reader that stays is inside.
    fn make_beside<R: Wait>(
        &mut self,
        rt: &R,
        alloc: Global,
        held: &Held<'_, N>,
        steps: &[Step],
    ) -> Result<(), Fail>
        requires { IsInside held.now }
    {
        for step in steps {
            match step {
                Step::Read { reader, query } if *reader == STAYING => {
                    self.say(alloc, held.read(query))?
                }
                _ => self.make(rt, alloc, step)?,
            }
        }
        Ok(())
    }

    /// Makes the steps of a visit of the reader that stays.
    fn make_held<R: Wait>(
        &mut self,
        rt: &R,
        alloc: Global,
        six: &mut Pass<N>,
        steps: &[Step],
    ) -> Result<(), Fail> {
        let held = six.hold()?;
        let made = self.make_beside(rt, alloc, &held, steps);
        held.leave();
        made
    }
}

/// Makes the steps, of which a visit of the reader that stays ends each part but the last.
fn walk<N: StoreName, R: Wait>(
    rt: &R,
    alloc: Global,
    copies: &mut Copies<'_, N>,
    six: &mut Pass<N>,
    steps: &[Step],
) -> Result<(), Fail> {
    for part in steps.split(|step| matches!(step, Step::Leave { reader: STAYING })) {
        let entering = |step: &Step| matches!(step, Step::Enter { reader: STAYING });
        match part.iter().position(entering) {
            Some(place) => {
                let (outside, inside) = part.split_at(place);
                copies.make_all(rt, alloc, outside)?;
                copies.make_held(rt, alloc, six, inside)?;
            }
            None => copies.make_all(rt, alloc, part)?,
        }
    }
    Ok(())
}

/// What is seen of two copies that make these steps.
fn copies_lines<N: StoreName, R: Wait>(
    rt: &R,
    alloc: Global,
    keeper: &mut Keeper<N>,
    passes: &mut Vec<Pass<N>>,
    steps: &[Step],
) -> Result<Vec<Line>, Fail> {
    let [five, six, seven] = passes.as_mut_slice() else {
        return Err("three passes were asked for".into());
    };
    let mut copies = Copies {
        keeper,
        five,
        seven,
        submitted: 0,
        waiting: None,
        receipts: Vec::new(alloc),
        lines: Vec::new(alloc),
    };
    let walked = walk(rt, alloc, &mut copies, six, steps);
    let Copies { lines, .. } = copies;
    kept(lines, walked)
}

/// The number of lines that are seen of each entry, and the place of the one that says how it was judged.
const PER_ENTRY: usize = 7;

const JUDGING: usize = 2;

/// Returns whether the work with the number was judged so.
fn has_judged_line(
    alloc: Global,
    lines: &[Line],
    number: usize,
    said: Result<u64, Refusal>,
) -> Result<bool, Fail> {
    let wanted = judged_line(alloc, said)?;
    let place = number
        .saturating_sub(1)
        .saturating_mul(PER_ENTRY)
        .saturating_add(JUDGING);
    match lines.get(place) {
        Some(line) => Ok(*line == wanted),
        None => Ok(false),
    }
}

#[test]
fn copies_follow_the_machine(rt: HostRuntime) -> Result<(), Fail> {
    let played = plays(&rt, rt.alloc(), 20, 3, Row::Followed)?;
    assert!(rt; played.as_wanted);
    assert!(rt; played.gone == Some(Refusal::Gone));
    Ok(())
}

/// Returns whether these lines say how the fifth, the sixth and the nineteenth entry were judged, which are resent, and
/// as much of each entry.
fn are_judging(alloc: Global, lines: &[Line]) -> Result<bool, Fail> {
    let conflict = Refusal::Conflict { place: 3 };
    Ok(
        lines.len() as u64 == LAST.saturating_mul(PER_ENTRY as u64)
            && has_judged_line(alloc, lines, 5, Ok(3))?
            && has_judged_line(alloc, lines, 19, Ok(14))?
            && has_judged_line(alloc, lines, 6, Err(conflict))?,
    )
}

/// Returns whether two copies that make the same steps show the same as the machine, line by line.
pub fn followed<N: StoreName, R: Wait>(
    rt: &R,
    alloc: Global,
    keeper: &mut Keeper<N>,
    passes: &mut Vec<Pass<N>>,
    (keys, limits): (RandomState, Limits),
) -> Result<bool, Fail> {
    let steps = all_steps(alloc)?;
    let seen = copies_lines(rt, alloc, keeper, passes, &steps);
    let (steps, seen) = beside(steps, seen)?;
    let wanted = machine_lines(alloc, keys, limits, steps)?;
    Ok(are_judging(alloc, &wanted)? && seen.as_slice() == wanted.as_slice())
}
