//! Lists of references, which share their tails and never change: applicative random-access stacks.
ghost use Rattle.std.specs.Prelude.{◌≡◌, ◌<◌, ◌≤◌, ◌∷◌, [], suc, IfOk, Some, length, slice_get, get_or};
ghost use Rattle.polarised_formulas.specs.References.{list_from, IsTail};

use fpc_base::outside::OutOfMemory;
use std::alloc::Global;
use std::marker::Model;
use std::rc::Rc;

/// A reference, and the list outside it. The jump leads to a tail of that list, so that any tail is
/// a logarithmic number of links away.
struct Link<R: Copy> {
    reference: R,
    len: usize,
    outer: Option<Rc<Link<R>>>,
    jump: Option<Rc<Link<R>>>,
}

impl<R: Copy> Model for Link<R> {
    ghost use Rattle.std.specs.Prelude.{List, ◌∷◌, length};
    ghost use Rattle.std.specs.Coded.{coded_list};
    ghost use Rattle.polarised_formulas.specs.References.{list_from, IsLink};

    ghost Value = { List R };

    ghost coded = { coded_list R.code };

    ghost view = { λ l. l.reference ∷ list_from l.outer };

    ghost invariant = { λ l. IsLink l.len (list_from l.outer) (list_from l.jump) };

    ghost size = { length };

    ghost use Rattle.std.proofs.Common.{arith, length-drop};

    ghost size_decreases = { λ l h. Prim.grind (arith, length-drop) };
}

/// One link after the other, without recursion: where a jump leads another link holds too.
impl<R: Copy> Drop for Link<R> {
    fn drop(mut self) {
        loop {
            let Link {
                reference: _,
                len: _,
                outer,
                jump,
            } = self;
            drop(jump);
            let Some(outer) = outer else {
                return;
            };
            let Some(next) = Rc::into_inner(outer) else {
                return;
            };
            self = next;
        }
    }
}

impl<R: Copy> Link<R> {
    fn len(&self) -> usize
        ensures length { result ≡ length self.now }
        ensures some { 0 < length self.now }
    {
        self.len
    }

    fn outer(&self) -> &Option<Rc<Link<R>>>
        ensures tail { IsTail (list_from result.now) self.now }
        ensures shorter { suc (length (list_from result.now)) ≡ length self.now }
    {
        &self.outer
    }

    fn jump(&self) -> &Option<Rc<Link<R>>>
        ensures tail { IsTail (list_from result.now) self.now }
        ensures shorter { length (list_from result.now) < length self.now }
    {
        &self.jump
    }

    /// How many items the jump leaves out.
    fn stride(&self) -> usize {
        self.len() - length_of(self.jump())
    }
}

/// How long the list is.
fn length_of<R: Copy>(list: &Option<Rc<Link<R>>>) -> usize
    ensures { result ≡ length (list_from list.now) }
{
    match list {
        Some(first) => first.len(),
        None => 0,
    }
}

/// The same list.
#[inline]
fn shared<R: Copy>(list: &Option<Rc<Link<R>>>) -> Result<Option<Rc<Link<R>>>, OutOfMemory>
    ensures { IfOk result (λ l. list_from l ≡ list_from list.now) }
{
    match list {
        Some(first) => Ok(Some(first.clone()?)),
        None => Ok(None),
    }
}

/// The jump of a link in front of the list. Two jumps of the same stride, one behind the other,
/// become one.
fn jump_over<R: Copy>(list: &Option<Rc<Link<R>>>) -> Result<Option<Rc<Link<R>>>, OutOfMemory>
    ensures { IfOk result (λ j. IsTail (list_from j) (list_from list.now)) }
{
    let Some(first) = list else {
        return Ok(None);
    };
    let Some(second) = first.jump() else {
        return shared(list);
    };
    if first.stride() == second.stride() {
        shared(second.jump())
    } else {
        shared(list)
    }
}

/// A shorter tail of the list that has at least so many items.
fn step_to<R: Copy>(first: &Link<R>, len: usize) -> &Link<R>
    requires some { 0 < len }
    requires less { len < length first.now }
    ensures tail { IsTail result.now first.now }
    ensures shorter { length result.now < length first.now }
    ensures enough { len ≤ length result.now }
{
    if let Some(jump) = first.jump() {
        if len <= jump.len() {
            return jump;
        }
    }
    match first.outer() {
        Some(outer) => outer,
        None => unreachable!(),
    }
}

/// The reference at a place. Time is logarithmic in the list's length.
fn reference_at<R: Copy>(first: &Link<R>, place: usize) -> R
    requires { place < length first.now }
    ensures { slice_get first.now place ≡ Some result }
{
    let len = first.len() - place;
    let mut link = first;
    while len < link.len() {
        link = step_to(link, len);
    }
    link.reference
}

/// A list of references. Lists that were made from one another share their memory, and the empty
/// list has none.
#[derive(Drop)]
pub(crate) struct References<R: Copy> {
    first: Option<Rc<Link<R>>>,
}

impl<R: Copy> Model for References<R> {
    ghost use Rattle.std.specs.Prelude.{List};
    ghost use Rattle.std.specs.Coded.{coded_list};
    ghost use Rattle.polarised_formulas.specs.References.{list_from};

    ghost Value = { List R };

    ghost coded = { coded_list R.code };

    ghost view = { λ r. list_from r.first };
}

impl<R: Copy> References<R> {
    /// The list without references. It takes no memory.
    pub(crate) fn none() -> References<R>
        ensures { result ≡ [] }
    {
        References { first: None }
    }

    /// How many there are. Constant time.
    fn len(&self) -> usize
        ensures { result ≡ length self.now }
    {
        length_of(&self.first)
    }

    /// The reference at a place, or else the other one. Time is logarithmic in the list's length.
    pub(crate) fn get_or(&self, place: usize, other: R) -> R
        ensures { result ≡ get_or self.now place other }
    {
        match &self.first {
            Some(first) if place < first.len() => reference_at(first, place),
            _ => other,
        }
    }

    /// The same list. Constant time.
    #[inline]
    pub(crate) fn copy(&self) -> Result<References<R>, OutOfMemory>
        ensures { IfOk result (λ r. r ≡ self.now) }
    {
        let first = shared(&self.first)?;
        Ok(References { first })
    }

    /// The list with one more in front. Constant time and memory.
    pub(crate) fn with(&self, alloc: Global, more: R) -> Result<References<R>, OutOfMemory>
        ensures { IfOk result (λ r. r ≡ more ∷ self.now) }
    {
        let Some(len) = self.len().checked_add(1) else {
            return Err(OutOfMemory);
        };
        let outer = shared(&self.first)?;
        let jump = jump_over(&self.first)?;
        let link = Link {
            reference: more,
            len,
            outer,
            jump,
        };
        Ok(References {
            first: Some(Rc::new(alloc, link)?),
        })
    }

    /// The list of these references. Time and memory are linear in their number.
    pub(crate) fn of_items(alloc: Global, items: &[R]) -> Result<References<R>, OutOfMemory>
        ensures { IfOk result (λ r. r ≡ items.now) }
    {
        let mut all = References::none();
        let mut left = items.len();
        while left > 0 {
            left -= 1;
            all = all.with(alloc, items[left])?;
        }
        Ok(all)
    }
}
