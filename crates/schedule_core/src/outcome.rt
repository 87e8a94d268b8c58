use trace_model::{Answer, Refusal};

/// The outcome of a step. Like a step it has no `Debug`.
#[derive(Drop)]
pub enum Outcome {
    /// The job waits, with its seat's next number.
    Put { number: u64 },
    /// The job of that seat and number was accepted.
    Taken { seat: u16, number: u64 },
    /// The batch of the job with that seat and number was sent before with the same spans, and is at this place,
    /// counted from 1 along the history and what is pending after it. Nothing was added.
    Again { seat: u16, number: u64, place: u64 },
    /// The job was refused, or the machine has run out of memory.
    Refused(Refusal),
    /// No job waits.
    Idle,
    /// This number of entries is published.
    Published { front: u64 },
    /// This reader has been inside since before the last publish.
    Held { reader: u32 },
    /// The reader entered a list with this number of entries.
    Entered { front: u64 },
    /// The answer at the list that was entered, which has this number of entries.
    Answered { front: u64, answer: Answer },
    /// The longest list that the reader has seen has this number of entries.
    Learnt { front: u64 },
    /// The reader is outside.
    Left,
    /// The reader is inside, but must be outside for this step.
    Inside,
    /// The reader is outside, but must be inside for this step.
    Outside,
    /// There is no such seat, reader or publish, or the seat's numbers are used up.
    Unknown,
}
