//! Makes the text of an answer part by part, on one page.
ghost use Rattle.std.specs.Prelude.{◌≡◌, ◌+◌, ◌^◌, ◌≤◌, ◌<◌, ◌⊎◌, ◌++◌, [], None, false, true, IfOk, OnOk, get_or, length};
ghost use Rattle.serde_json.specs.Written.{compact_text};
ghost use Rattle.query_json.specs.declared.paging.TheConstants.{PART_BYTES};
ghost use Rattle.json_page.specs.Page.{Puts};
ghost use Rattle.query_json.specs.Pieces.{AreWritable, item_trees, runs_of};
ghost use Rattle.query_json.specs.Runs.{AllFit, Fills, PutsNext, end_text, front_text, left_at, runs_text};
ghost use Rattle.answer_trees.specs.Trees.{answer_tree, items_tree};

use crate::answer::{INITIAL_CAPACITY, not_found_bytes};
use crate::items::Items;
use crate::writing::{begin_items, end_items, write_separator};
use json_page::Page;
use std::alloc::{AllocError, Global};
use trace_model::Answer;

/// The size at which the first part takes no further piece.
const FIRST_PART_BYTES: usize = 262_144;

/// The size at which a later part takes no further piece.
const PART_BYTES: usize = 16_384;

/// The position of the next piece. The pieces form runs: one run for each item, which begins with the separator
/// from the item before it, and one for the text after the items.
#[derive(Clone, Copy)]
pub(crate) struct Position {
    run: usize,
    piece: usize,
}

impl Position {
    /// Returns the position of the first piece.
    fn first() -> Position
        ensures run { result.run ≡ 0 }
        ensures piece { result.piece ≡ 0 }
    {
        Position { run: 0, piece: 0 }
    }
}

/// The compact text of an answer's tree, in parts: the current part, which is on the page, and the pieces after it.
/// The first part has a large page of its own. The later ones share one page, which is allocated with the first.
#[derive(Drop)]
pub(crate) struct PagedAnswer {
    page: Page,
    /// The page of the later parts, while the first part is on the other one.
    later: Option<Page>,
    items: Items,
    next: Position,
    /// The number of bytes after the current part.
    rest_len: u64,
}

/// Writes the text before the pieces.
fn write_start(page: &mut Page)
    ensures { Puts page.old page.new front_text }
{
    begin_items(page);
    page.push_str("[");
}

/// Returns the number of pieces of a run.
fn piece_count(items: &Items, run: usize) -> usize
    requires writable { AreWritable items.now }
    requires run { run < length (runs_of items.now) }
    ensures count { result ≡ length (get_or (runs_of items.now) run []) }
    ensures run_bound { run < 2 ^ 63 }
{
    if run < items.count() {
        items.piece_count(run) + 1
    } else {
        1
    }
}

/// Writes the text after this number of items.
fn write_end(page: &mut Page, total: usize)
    ensures { Puts page.old page.new (end_text total) }
{
    page.push_str("]");
    end_items(page, total);
}

/// Writes a piece.
fn write_piece(page: &mut Page, items: &Items, at: Position)
    requires writable { AreWritable items.now }
    requires run { at.run < length (runs_of items.now) }
    requires piece { at.piece < length (get_or (runs_of items.now) at.run []) }
    ensures { Puts page.old page.new (get_or (get_or (runs_of items.now) at.run []) at.piece []) }
{
    if at.run == items.count() {
        write_end(page, at.run);
    } else if at.piece == 0 {
        write_separator(page, at.run);
    } else {
        items.write_piece(page, at.run, at.piece - 1);
    }
}

/// Writes the piece at a position, unless the run has ended. Returns the position after it.
fn write_next(page: &mut Page, items: &Items, at: Position) -> Position
    requires writable { AreWritable items.now }
    requires run { at.run < length (runs_of items.now) }
    ensures { PutsNext page.old page.new (left_at (runs_of items.now) at.run at.piece)
        (left_at (runs_of items.now) result.run result.piece) }
{
    if at.piece < piece_count(items, at.run) {
        write_piece(page, items, at);
        return Position {
            run: at.run,
            piece: at.piece + 1,
        };
    }
    Position {
        run: at.run + 1,
        piece: 0,
    }
}

/// Writes pieces until the page has this number of bytes, the page is full, or no piece is left. Returns the
/// position after them.
fn fill(page: &mut Page, items: &Items, from: Position, enough: usize) -> Position
    requires { AreWritable items.now }
    ensures fills { Fills enough page.old page.new (left_at (runs_of items.now) from.run from.piece)
        (left_at (runs_of items.now) result.run result.piece) }
    ensures enough { page.new.full ≡ false → (enough ≤ length page.new.bytes.items)
        ⊎ (length (runs_of items.now) ≤ result.run) }
{
    let mut at = from;
    while at.run <= items.count() && page.len() < enough && !page.is_full() {
        at = write_next(page, items, at);
    }
    at
}

/// Returns the number of bytes of the pieces from a position on, and that of the largest of them. It stores none.
fn measure(alloc: Global, items: &Items, from: Position) -> Result<(u64, usize), AllocError>
    requires { AreWritable items.now }
    ensures rest_len { IfOk result (λ r.
        r.0 ≡ length (runs_text (left_at (runs_of items.now) from.run from.piece))) }
    ensures fit { IfOk result (λ r.
        AllFit r.1 (left_at (runs_of items.now) from.run from.piece)) }
{
    let mut rest_len = 0u64;
    let mut largest = 0usize;
    let mut at = from;
    while at.run <= items.count() {
        let mut page = Page::counting(alloc);
        at = write_next(&mut page, items, at);
        let size = page.counted()?;
        let Some(longer) = rest_len.checked_add(size as u64) else {
            // Impossible: no answer's text has 2^64 bytes.
            return Err(AllocError);
        };
        rest_len = longer;
        largest = largest.max(size);
    }
    Ok((rest_len, largest))
}

/// Returns a page with room for a part whose pieces aren't larger than this.
fn page_for(alloc: Global, largest: usize) -> Result<Page, AllocError>
    ensures empty { IfOk result (λ p. p.bytes.items ≡ []) }
    ensures open { IfOk result (λ p. p.full ≡ false) }
    ensures room { IfOk result (λ p. PART_BYTES + largest ≤ p.bytes.room) }
{
    let Some(room) = largest.checked_add(PART_BYTES) else {
        // Impossible: no piece has nearly 2^64 bytes.
        return Err(AllocError);
    };
    Page::with_room(alloc, room)
}

impl PagedAnswer {
    ghost use Rattle.query_json.specs.AnswerPages.{part_of, rest_of, IsReady};
    ghost use Rattle.query_json.specs.Parts.{IsEmptyOnlyAtEnd};

    /// Returns a finished text as one part.
    fn whole(alloc: Global, text: Vec<u8>) -> PagedAnswer
        ensures ready { IsReady result }
        ensures part { part_of result ≡ text.items }
        ensures rest { rest_of result ≡ [] }
    {
        PagedAnswer {
            page: Page::of_text(text),
            later: None,
            items: Items::none(alloc),
            next: Position { run: 1, piece: 0 },
            rest_len: 0,
        }
    }

    /// Returns the text in parts: the first one, which is finished, and those of the pieces from a position on.
    fn in_parts(
        alloc: Global,
        first: Page,
        items: Items,
        next: Position,
    ) -> Result<PagedAnswer, AllocError>
        requires { AreWritable items }
        ensures ready { IfOk result IsReady }
        ensures part { IfOk result (λ p. part_of p ≡ first.bytes.items) }
        ensures text { IfOk result (λ p. part_of p ++ rest_of p
            ≡ first.bytes.items ++ runs_text (left_at (runs_of items) next.run next.piece)) }
    {
        let (rest_len, largest) = measure(alloc, &items, next)?;
        let later = page_for(alloc, largest)?;
        Ok(PagedAnswer {
            page: first,
            later: Some(later),
            items,
            next,
            rest_len,
        })
    }

    /// Returns the text of these items, as one part if it isn't large.
    fn of_items(alloc: Global, items: Items) -> Result<PagedAnswer, AllocError>
        requires { AreWritable items }
        ensures ready { IfOk result IsReady }
        ensures text { IfOk result (λ p.
            part_of p ++ rest_of p ≡ compact_text (items_tree (item_trees items))) }
        ensures some { IfOk result (λ p. IsEmptyOnlyAtEnd (part_of p) (rest_of p)) }
    {
        let mut page = Page::with_room(alloc, INITIAL_CAPACITY)?;
        write_start(&mut page);
        let end = fill(&mut page, &items, Position::first(), FIRST_PART_BYTES);
        if page.is_full() {
            return Err(AllocError);
        }
        if end.run > items.count() {
            let text = page.finish()?;
            return Ok(PagedAnswer::whole(alloc, text));
        }
        PagedAnswer::in_parts(alloc, page, items, end)
    }

    /// Allocates all that the answer's text needs. For a text of more than about 256 KB that is the state for writing
    /// its traces, and room for a part.
    ///
    /// # Errors
    ///
    /// Out of memory, and nothing else.
    pub(crate) fn new(alloc: Global, answer: Answer) -> Result<PagedAnswer, AllocError>
        ensures ready { IfOk result IsReady }
        ensures text { IfOk result (λ p.
            part_of p ++ rest_of p ≡ compact_text (answer_tree answer)) }
        ensures some { IfOk result (λ p. IsEmptyOnlyAtEnd (part_of p) (rest_of p)) }
    {
        if let Some(items) = Items::of(alloc, answer)? {
            return PagedAnswer::of_items(alloc, items);
        }
        let text = not_found_bytes(alloc)?;
        Ok(PagedAnswer::whole(alloc, text))
    }

    /// Returns the current part.
    pub(crate) fn part(&self) -> &[u8]
        ensures { result.now ≡ part_of self.now }
    {
        self.page.as_slice()
    }

    /// Returns the number of bytes that its pages take in memory: that of the current part, and that of the later
    /// parts if they have another one.
    pub(crate) fn room(&self) -> usize {
        let later = match &self.later {
            Some(page) => page.room(),
            None => 0,
        };
        self.page.room().saturating_add(later)
    }

    /// Returns the number of bytes after the current part.
    pub(crate) fn rest_len(&self) -> u64
        requires { IsReady self.now }
        ensures { result ≡ length (rest_of self.now) }
    {
        self.rest_len
    }

    /// Moves pieces to the part until it is large enough. It doesn't allocate.
    fn extend(&mut self)
        requires ready { IsReady self.old }
        requires later { self.old.later ≡ None }
        ensures ready { IsReady self.new }
        ensures gives { part_of self.new ++ rest_of self.new
            ≡ part_of self.old ++ rest_of self.old }
        ensures some { IsEmptyOnlyAtEnd (part_of self.new) (rest_of self.new) }
    {
        let before = self.page.len();
        self.next = fill(&mut self.page, &self.items, self.next, PART_BYTES);
        self.rest_len -= (self.page.len() - before) as u64;
    }

    /// Replaces the first page by the page of the later parts, and drops the first.
    fn replace_page(&mut self)
        requires { IsReady self.old }
        ensures ready { IsReady self.new }
        ensures later { self.new.later ≡ None }
        ensures rest { rest_of self.new ≡ rest_of self.old }
    {
        if let Some(later) = self.later.take() {
            self.page = later;
        }
    }

    /// Replaces the current part by the next one. It doesn't allocate. The part is empty only if nothing is left.
    pub(crate) fn advance(&mut self)
        requires { IsReady self.old }
        ensures ready { IsReady self.new }
        ensures gives { part_of self.new ++ rest_of self.new ≡ rest_of self.old }
        ensures some { IsEmptyOnlyAtEnd (part_of self.new) (rest_of self.new) }
    {
        self.replace_page();
        self.page.clear();
        self.extend();
    }
}
