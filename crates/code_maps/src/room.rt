//! How much the maps hold, before they are made.

use bal_base::Memory;
use map_traces::Event;

/// The most types of operands and numbers of messages that the maps of a package may hold.
pub const MOST_ENTRIES: u64 = 67_108_864;

/// How much may still be held.
#[derive(Clone, Copy)]
pub struct Room {
    pub left: u64,
}

impl Room {
    /// One map with so many entries.
    fn map(&mut self, entries: u64) -> Result<(), Memory> {
        if entries > self.left {
            return Err(Memory);
        }
        self.left -= entries;
        Ok(())
    }

    /// The maps of what was told of a unit, each with numbers for so many workers.
    pub fn take(&mut self, events: &[Event<'_>], workers: usize) -> Result<(), Memory> {
        let numbers = (workers as u64).saturating_mul(2);
        let mut depth: u64 = 0;
        for e in events {
            match e {
                Event::Place => self.map(depth.saturating_add(numbers))?,
                Event::Push(_) => depth = depth.saturating_add(1),
                Event::Take(count) => depth = depth.saturating_sub(*count as u64),
            }
        }
        Ok(())
    }
}
