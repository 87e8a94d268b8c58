//! Opening a desk.

ghost use Rattle.std.specs.Prelude.{◌≡◌, ◌≤◌, IfOk, IfErr, All, length, map};
ghost use Rattle.std.specs.List.{range_with_len};
ghost use Rattle.trace_model.specs.declared.refusal.Refusal.TheVariants.{NoMemory};
ghost use Rattle.intake.specs.Seats.{IsNewSeat};
ghost use Rattle.intake.specs.Turns.{IsNewClerk};

use crate::bell::Bell;
use crate::clerk::Clerk;
use crate::desk_handle::DeskHandle;
use crate::inbox::Inbox;
use crate::queue::{MakeSeat, Queue, QueueEnd};
use crate::seat::Seat;
use crate::shared::Shared;
use crossbeam_utils::CachePadded;
use read_side::{Receipt, StoreName};
use sent_batches::BatchKeys;
use std::alloc::{AllocError, Global};
use std::hash::RandomState;
use std::sync::atomic::AtomicBool;
use std::sync::{Arc, Mutex};
use trace_model::Refusal;

/// The greatest number of seats of a desk.
pub const MAX_SEATS: u16 = 64;

/// The greatest number of jobs that a queue has room for.
pub const MAX_QUEUE: usize = 4096;

/// Makes a bell for each number that a seat may have.
fn bells(alloc: Global) -> Result<Vec<CachePadded<Bell>>, AllocError>
    ensures { IfOk result (λ bells. length bells.items ≡ MAX_SEATS) }
{
    let mut bells = Vec::with_capacity(alloc, MAX_SEATS as usize)?;
    for _made in 0..MAX_SEATS {
        bells.push(CachePadded::new(Bell::new()))?;
    }
    Ok(bells)
}

/// Opens a desk of the receipt's store, whose queue has room for 1 to [`MAX_QUEUE`] jobs, with 1 to [`MAX_SEATS`] seats
/// and a clerk. The seats have the numbers 0, 1 and so on. The keys are those with which the store was opened: with
/// others the clerk hashes each batch again.
///
/// # Errors
///
/// [`Refusal::NoMemory`]: nothing is left allocated.
pub fn open_desk<N: StoreName>(
    alloc: Global,
    keys: RandomState,
    first: Receipt<N>,
    capacity: usize,
    seats: u16,
) -> Result<(DeskHandle<N>, Vec<Seat<N>>, Clerk<N>), Refusal>
    requires capacity { (1 ≤ capacity) × (capacity ≤ MAX_QUEUE) }
    requires seats { (1 ≤ seats) × (seats ≤ MAX_SEATS) }
    ensures clerk { IfOk result (λ r. IsNewClerk r.2) }
    ensures seats { IfOk result (λ r. All (IsNewSeat r.2.desk capacity) r.1.items) }
    ensures numbers { IfOk result (λ r. map (λ s. s.seat) r.1.items ≡ range_with_len 0 seats) }
    ensures reason { IfErr result (λ why. why ≡ NoMemory) }
{
    let last = Mutex::new(Arc::new(alloc, first)?);
    let answer_bells = bells(alloc)?;
    let mut made = Vec::with_capacity(alloc, seats as usize)?;
    let none_taken = vec![in alloc; 0; seats as usize]?;
    let (queue, mut end): (Queue<N>, QueueEnd<N>) = Queue::ruled(alloc, capacity)?;
    let shared = Arc::new(
        alloc,
        Shared {
            keys: BatchKeys::new(keys),
            queue,
            closed: AtomicBool::new(false),
            ended: AtomicBool::new(false),
            jobs: CachePadded::new(Bell::new()),
            answer_bells,
            last,
        },
    )?;
    for number in 0..seats {
        let theirs = Arc::try_clone(&shared)?;
        let seat = shared.queue.another::<MakeSeat>(&mut end);
        made.push_reserved(Seat::new(theirs, seat, number));
    }
    let desk = DeskHandle::new(Arc::try_clone(&shared)?);
    let inbox = Inbox::new(Arc::try_clone(&shared)?, end, none_taken);
    Ok((desk, made, Clerk::new(alloc, shared, inbox)))
}
