use jaeger_model::Batch;
use trace_model::Query;

/// The steps of the machine. Seats and readers have the numbers 0 to 63. Nothing prints a step, so it has no `Debug`,
/// whose proof takes long.
#[derive(Drop)]
pub enum Step {
    /// A seat submits a batch.
    Put { seat: u32, batch: Batch },
    /// A seat submits a limit on the traces that are shown, at most 1,000,000; 0 shows all.
    Limit { seat: u32, limit: u32 },
    /// The clerk takes the job that has waited longest.
    Take,
    /// What was accepted is published: readers that enter from then on see it.
    Publish,
    /// A reader enters what is published.
    Enter { reader: u32 },
    /// A reader inside queries the list that it entered.
    Read { reader: u32, query: Query },
    /// A reader outside learns of a publish, counted from 1.
    Learn { reader: u32, publish: u32 },
    /// A reader leaves.
    Leave { reader: u32 },
}
