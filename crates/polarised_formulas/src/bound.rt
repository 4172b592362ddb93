//! The variables that quantifiers bind around a place.
ghost use Rattle.std.specs.Prelude.{◌≡◌, ◌≤◌, ◌∷◌, [], ℕ, List, length, if◌then◌else◌, IsTrue, IsSome, OnOk, OnErr};
ghost use Rattle.std.specs.Str.{bytes_eq};
ghost use Rattle.fpc_terms.specs.Name.{place_in};
ghost use Rattle.polarised_formulas.specs.Bound.{outermost};
ghost use Rattle.polarised_formulas.specs.BoundDepths.{depth_of};

use fpc_base::outside::OutOfMemory;
use std::alloc::Global;
use std::collections::BTreeMap;
use std::marker::Model;

/// The most variables that may be bound around a place. Limits of the grammar are met far below.
const MOST: usize = 0xffff_ffff;

/// A bound variable, and the depth of the next outer one with its name, which it covers.
#[derive(Clone, Copy)]
struct Level<'a> {
    text: &'a [u8],
    covered: Option<u32>,
}

/// The variables that are bound around a place. Contracts see the innermost first.
#[derive(Drop)]
pub struct BoundNames<'a> {
    levels: Vec<Level<'a>>,
    /// For each name, how many quantifiers stand outside of the innermost one that binds it.
    depths: BTreeMap<&'a [u8], u32>,
}

impl<'a> Model for BoundNames<'a> {
    ghost use Rattle.std.specs.Prelude.{ℕ, List, map, reverse};
    ghost use Rattle.polarised_formulas.specs.BoundDepths.{Depths};

    ghost Value = { List (List ℕ) };

    ghost view = { λ b. reverse (map (λ x. x.text.now) b.levels.items) };

    ghost invariant = { λ b. Depths b.depths (reverse (map (λ x. x.text.now) b.levels.items)) (reverse (map (λ x. x.covered) b.levels.items)) };
}

impl<'a> BoundNames<'a> {
    /// No variables. It takes no memory.
    pub(crate) fn new(alloc: Global) -> BoundNames<'a>
        ensures { result ≡ [] }
    {
        BoundNames {
            levels: Vec::new(alloc),
            depths: BTreeMap::new(alloc),
        }
    }

    /// Binds a variable, which is then the innermost. Time is logarithmic in the number of those that were bound.
    pub(crate) fn push(&mut self, text: &'a [u8]) -> Result<(), OutOfMemory>
        ensures ok { OnOk result (self.new ≡ text.now ∷ self.old) }
        ensures err { OnErr result (self.new ≡ self.old) }
    {
        let depth = self.levels.len();
        if depth == MOST {
            return Err(OutOfMemory);
        }
        self.levels.reserve(1)?;
        let covered = self.depths.insert(text, depth as u32)?;
        self.levels.push(Level { text, covered })?;
        Ok(())
    }

    /// How many quantifiers stand between the innermost one that binds this variable and the place. Time is logarithmic
    /// in the number of variables that are bound there.
    pub(crate) fn find(&self, text: &[u8]) -> Option<u32>
        ensures { result ≡ place_in self.now text.now }
    {
        let depth = self.depths.get(text).copied()?;
        Some(self.levels.len() as u32 - 1 - depth)
    }

    /// Takes the innermost one away, where there are more than so many, and answers whether there are.
    fn leave_one(&mut self, count: usize) -> bool
        ensures some { IsTrue result → (x : List ℕ) × (self.old ≡ x ∷ self.new) × (count ≤ length self.new) }
        ensures none { ¬ (IsTrue result) → (self.new ≡ self.old) × (length self.old ≤ count) }
    {
        if self.levels.len() <= count {
            return false;
        }
        match self.levels.pop() {
            Some(level) => {
                uncover(&mut self.depths, level);
                true
            }
            None => false,
        }
    }

    /// Leaves the outermost ones, so many of them. Each that goes takes time logarithmic in the number of those that
    /// were there, and no memory.
    pub(crate) fn keep(&mut self, count: usize)
        ensures { self.new ≡ outermost count self.old }
    {
        while self.leave_one(count) {}
    }
}

/// Gives a name the depth that it had before this variable was bound.
fn uncover<'a>(depths: &mut BTreeMap<&'a [u8], u32>, level: Level<'a>)
    requires { IsSome (depth_of depths.old level.text.now) }
    ensures { (text : List ℕ) → depth_of depths.new text ≡ (if bytes_eq level.entry.text.now text then level.entry.covered else depth_of depths.old text) }
{
    match level.covered {
        Some(depth) => {
            if let Some(place) = depths.get_mut(level.text) {
                *place = depth;
            }
        }
        None => {
            depths.remove(level.text);
        }
    }
}
