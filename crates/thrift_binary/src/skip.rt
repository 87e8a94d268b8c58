ghost use Rattle.std.specs.Prelude.{◌≡◌, ◌<◌, ◌≤◌, ◌++◌, List, ℕ, length, OnOk};
ghost use Rattle.thrift_binary.specs.Spelling.{Beginning, IsValue};
ghost use Rattle.thrift_binary.specs.Reading.{Reads};
ghost use Rattle.thrift_binary.specs.Skipping.{value_at, skip_at, past, text, struct, items, pairs, times, both, container, leaf};

use crate::cursor::Cursor;
use crate::fault::WireError;
use crate::types::{self, is_container, width};

/// The greatest number of levels of containers in a skipped value.
pub const MAX_LEVELS: u8 = 64;

impl<'a> Cursor<'a> {
    fn skip_bytes(&mut self, n: usize) -> Result<(), WireError>
        ensures exact { Reads (λ _. tt) (past n) self.old result self.new }
        ensures no_longer { OnOk result (length self.new ≤ length self.old) }
    {
        self.take(n)?;
        Ok(())
    }

    #[tactic(auto, unfolding(crate::specs::Skipping::text))]
    fn skip_text(&mut self) -> Result<(), WireError>
        ensures exact { Reads (λ _. tt) text self.old result self.new }
        ensures no_longer { OnOk result (length self.new ≤ length self.old) }
    {
        self.read_bytes()?;
        Ok(())
    }

    /// Skips a value that is no container.
    fn leaf(&mut self, code: u8) -> Result<(), WireError>
        ensures exact { Reads (λ _. tt) (leaf code) self.old result self.new }
        ensures no_longer { OnOk result (length self.new ≤ length self.old) }
    {
        if code == types::STRING {
            return self.skip_text();
        }
        let width = width(code);
        if width == 0 {
            return self.refuse(WireError::BadType);
        }
        self.skip_bytes(width)
    }

    /// Skips a value of the type, which is a code of the table ([`crate::types`]). The value has at most 64 levels of
    /// containers; a container without containers in it has one level. A bool may be any byte here, and a string any
    /// bytes.
    ///
    /// (Thrift binary protocol, all encodings; the bound on levels is this crate's own.)
    ///
    /// # Errors
    ///
    /// [`WireError::Truncated`] if no byte remains. Else the first fault in the value: [`WireError::BadType`] at a type
    /// outside the table, [`WireError::TooDeep`] at a container inside 64 others, before any of its bytes is read,
    /// [`WireError::BadLength`] at a negative size, or [`WireError::Truncated`].
    #[tactic(auto, unfolding(crate::specs::Skipping::skip_at))]
    pub fn skip(&mut self, code: u8) -> Result<(), WireError>
        ensures exact { Reads (λ _. tt) (skip_at code) self.old result self.new }
        ensures no_longer { OnOk result (length self.new ≤ length self.old) }
        ensures found { OnOk result (Beginning (IsValue 64 code) self.old self.new) }
        ensures complete { (value rest : List ℕ) → IsValue 64 code value → self.old ≡ value ++ rest
            → (result ≡ Ok tt) × (self.new ≡ rest) }
    {
        if self.rest().is_empty() {
            return self.refuse(WireError::Truncated);
        }
        self.value(code, MAX_LEVELS)
    }

    #[cycle(skip)]
    fn value(&mut self, code: u8, levels: u8) -> Result<(), WireError>
        ensures exact { Reads (λ _. tt) (value_at levels code) self.old result self.new }
        ensures no_longer { OnOk result (length self.new ≤ length self.old) }
    {
        if !is_container(code) {
            return self.leaf(code);
        }
        if levels == 0 {
            return self.refuse(WireError::TooDeep);
        }
        self.container(code, levels - 1)
    }

    #[cycle(skip)]
    fn container(&mut self, code: u8, levels: u8) -> Result<(), WireError>
        ensures exact { Reads (λ _. tt) (container (value_at levels) code) self.old result
            self.new }
        ensures no_longer { OnOk result (length self.new ≤ length self.old) }
    {
        if code == types::STRUCT {
            self.fields(levels)
        } else if code == types::MAP {
            self.pairs(levels)
        } else {
            self.items(levels)
        }
    }

    #[cycle(skip)]
    fn fields(&mut self, levels: u8) -> Result<(), WireError>
        ensures exact { Reads (λ _. tt) (struct (value_at levels)) self.old result self.new }
        ensures no_longer { OnOk result (length self.new ≤ length self.old) }
    {
        while let Some((code, _)) = self.field()? {
            self.value(code, levels)?;
        }
        Ok(())
    }

    #[cycle(skip)]
    fn items(&mut self, levels: u8) -> Result<(), WireError>
        ensures exact { Reads (λ _. tt) (items (value_at levels)) self.old result self.new }
        ensures no_longer { OnOk result (length self.new ≤ length self.old) }
    {
        let (code, size) = self.list_head()?;
        for _ in 0..size {
            self.value(code, levels)?;
        }
        Ok(())
    }

    #[cycle(skip)]
    fn pairs(&mut self, levels: u8) -> Result<(), WireError>
        ensures exact { Reads (λ _. tt) (pairs (value_at levels)) self.old result self.new }
        ensures no_longer { OnOk result (length self.new ≤ length self.old) }
    {
        let (key, value, size) = self.map_head()?;
        for _ in 0..size {
            self.value(key, levels)?;
            self.value(value, levels)?;
        }
        Ok(())
    }
}
