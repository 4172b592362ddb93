//! Where a text may stand in a table, told by its last three bytes.
use fpc_base::outside::OutOfMemory;
use std::alloc::Global;

/// How many hints there are.
const HINTS: usize = 1_024;

/// For some texts the place where they may stand. A hint may be wrong, so it is only tried, and
/// nothing is said of it.
#[derive(Drop)]
pub(crate) struct Hints {
    places: Vec<u32>,
}

impl Hints {
    /// No hints. It takes no memory.
    pub(crate) fn new(alloc: Global) -> Hints {
        Hints {
            places: Vec::new(alloc),
        }
    }

    /// Takes the memory of the hints, where that has not been done.
    pub(crate) fn begin(&mut self) -> Result<(), OutOfMemory> {
        if self.places.is_empty() {
            let alloc = *self.places.allocator();
            self.places = vec![in alloc; 0u32; HINTS]?;
        }
        Ok(())
    }

    /// The place to try for a text. Constant time.
    pub(crate) fn place(&self, text: &[u8]) -> Option<u32> {
        self.places.get(hint_of(text)).copied()
    }

    /// Makes this the place to try for a text. Constant time.
    pub(crate) fn set(&mut self, text: &[u8], place: u32) {
        if let Some(hint) = self.places.get_mut(hint_of(text)) {
            *hint = place;
        }
    }
}

/// The number of the text's hint.
fn hint_of(text: &[u8]) -> usize {
    match text {
        [.., first, second, third] => {
            (*first as usize * 289 + *second as usize * 17 + *third as usize) % HINTS
        }
        [first, second] => (*first as usize * 17 + *second as usize) % HINTS,
        [only] => *only as usize,
        _ => 0,
    }
}
