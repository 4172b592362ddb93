//! Formulas that share their nodes.
ghost use Rattle.std.specs.Prelude.{◌≡◌, ◌∷◌, [], false, IfOk, Some, length, get_or, drop};
ghost use Rattle.fpc_terms.specs.Term.{Term};
ghost use Rattle.polarised_formulas.specs.Formula.{formula_of, root_node, nodes_of, dual_of, opened};
ghost use Rattle.polarised_formulas.specs.Parts.{left_of, right_of, body_of, IsPair, IsQuantified};
ghost use Rattle.polarised_formulas.specs.Closure.{IsAt, marked_node, stands_for, root_closure, at_part, opened_by, dual_closure, IsReached, NoneBound};

use crate::dual::dual_of_node;
use crate::formula::Formula;
use crate::node::Node;
use crate::references::References;
use crate::tree::Tree;
use fpc_base::outside::OutOfMemory;
use std::alloc::Global;
use std::marker::Model;
use std::rc::Rc;

/// A whole formula, with references for its variables.
#[derive(Drop)]
struct Root<R: Copy> {
    tree: Tree,
    parameters: References<R>,
}

/// A part of a formula, or its dual, with references for its free bound indexes and its variables.
/// Its copies and its parts share the formula's nodes.
#[derive(Drop)]
pub struct Closure<R: Copy> {
    alloc: Global,
    root: Rc<Root<R>>,
    /// The references for the free bound indexes, the innermost first.
    opened: References<R>,
    /// The place of the part's outermost node.
    from: usize,
    is_dual: bool,
}

impl<R: Copy> Model for Closure<R> {
    ghost use Rattle.std.specs.Prelude.{length, drop};
    ghost use Rattle.polarised_formulas.specs.Formula.{nodes_of, formula_of};
    ghost use Rattle.polarised_formulas.specs.Closure.{Closure as Closed, closure_code, IsAt};

    ghost Value = { Closed R };

    ghost coded = { closure_code R.code };

    ghost view = { λ c. record { part = formula_of (drop c.from (nodes_of c.root.value.tree)); is_dual = c.is_dual; opened = c.opened; parameters = c.root.value.parameters } };

    ghost invariant = { λ c. IsAt (drop c.from (nodes_of c.root.value.tree)) (length c.opened) (length c.root.value.parameters) };
}

/// The node of the dual, where it is meant.
#[inline]
fn with_mark(node: Node, is_dual: bool) -> Node
    ensures { result ≡ marked_node is_dual node }
{
    if is_dual { dual_of_node(node) } else { node }
}

/// The closure of these.
#[inline]
fn made<R: Copy>(
    alloc: Global,
    root: Rc<Root<R>>,
    opened: References<R>,
    from: usize,
    is_dual: bool,
) -> Closure<R>
    requires { IsAt (drop from (nodes_of root.value.tree)) (length opened) (length root.value.parameters) }
    ensures { result ≡ record { part = formula_of (drop from (nodes_of root.value.tree)); is_dual = is_dual; opened = opened; parameters = root.value.parameters } }
{
    Closure {
        alloc,
        root,
        opened,
        from,
        is_dual,
    }
}

/// The closure of a part of the same formula.
#[inline]
fn sharing<R: Copy>(
    alloc: Global,
    root: &Rc<Root<R>>,
    opened: References<R>,
    from: usize,
    is_dual: bool,
) -> Result<Closure<R>, OutOfMemory>
    requires { IsAt (drop from (nodes_of root.now.value.tree)) (length opened) (length root.now.value.parameters) }
    ensures { IfOk result (λ c. c ≡ record { part = formula_of (drop from (nodes_of root.now.value.tree)); is_dual = is_dual; opened = opened; parameters = root.now.value.parameters }) }
{
    let root = root.clone()?;
    Ok(made(alloc, root, opened, from, is_dual))
}

/// The closure of a whole formula with these references for its variables.
fn whole<R: Copy>(
    alloc: Global,
    f: Formula,
    parameters: References<R>,
) -> Result<Closure<R>, OutOfMemory>
    requires { IsReached 0 (length parameters) 0 f }
    ensures { IfOk result (λ c. c ≡ root_closure f parameters) }
{
    let tree = Tree::of_formula(alloc, f)?;
    let root = Rc::new(alloc, Root { tree, parameters })?;
    Ok(made(alloc, root, References::none(), 0, false))
}

impl<R: Copy> Closure<R> {
    /// The closure of a whole formula. Time and memory are linear in the sizes of the formula and
    /// the list.
    pub fn from_formula(
        alloc: Global,
        f: &Formula,
        parameters: &[R],
    ) -> Result<Closure<R>, OutOfMemory>
        requires { IsReached 0 (length parameters.now) 0 f.now }
        ensures { IfOk result (λ c. c ≡ root_closure f.now parameters.now) }
    {
        let parameters = References::of_items(alloc, parameters)?;
        whole(alloc, f.copy()?, parameters)
    }

    /// The closure of a whole formula without variables, whose nodes are not copied. Time is linear
    /// in its size, and so is the memory, which the sizes of its parts take; for one node it is
    /// constant.
    pub fn of_formula(alloc: Global, f: Formula) -> Result<Closure<R>, OutOfMemory>
        requires { IsReached 0 0 0 f }
        ensures { IfOk result (λ c. c ≡ root_closure f []) }
    {
        whole(alloc, f, References::none())
    }

    /// The outermost node of the formula that is meant. Constant time.
    #[inline]
    pub fn shape(&self) -> Node
        ensures value { result ≡ marked_node self.now.is_dual (root_node self.now.part) }
        ensures stands { (ref : R → Term) → result ≡ root_node (stands_for ref self.now) }
    {
        with_mark(self.root.tree.nodes()[self.from], self.is_dual)
    }

    /// The first of the two parts. Constant time.
    #[inline]
    pub fn left(&self) -> Result<Closure<R>, OutOfMemory>
        requires { IsPair self.now.part }
        ensures value { IfOk result (λ c. c ≡ at_part self.now (left_of self.now.part)) }
        ensures stands { IfOk result (λ c. (ref : R → Term) → stands_for ref c ≡ left_of (stands_for ref self.now)) }
    {
        let from = self.root.tree.next_of(self.from);
        let opened = self.opened.copy()?;
        sharing(self.alloc, &self.root, opened, from, self.is_dual)
    }

    /// The second of the two parts. Constant time.
    #[inline]
    pub fn right(&self) -> Result<Closure<R>, OutOfMemory>
        requires { IsPair self.now.part }
        ensures value { IfOk result (λ c. c ≡ at_part self.now (right_of self.now.part)) }
        ensures stands { IfOk result (λ c. (ref : R → Term) → stands_for ref c ≡ right_of (stands_for ref self.now)) }
    {
        let first = self.root.tree.next_of(self.from);
        let from = self.root.tree.end_of(first);
        let opened = self.opened.copy()?;
        sharing(self.alloc, &self.root, opened, from, self.is_dual)
    }

    /// The body, with a reference for the index that the quantifier binds. Constant time and memory.
    #[inline]
    pub fn open_at(&self, t: R) -> Result<Closure<R>, OutOfMemory>
        requires { IsQuantified self.now.part }
        ensures value { IfOk result (λ c. c ≡ opened_by t self.now (body_of self.now.part)) }
        ensures stands { IfOk result (λ c. (ref : R → Term) → NoneBound ref → opened (ref t) (stands_for ref self.now) ≡ Some (stands_for ref c)) }
    {
        let from = self.root.tree.next_of(self.from);
        let opened = self.opened.with(self.alloc, t)?;
        sharing(self.alloc, &self.root, opened, from, self.is_dual)
    }

    /// The dual. Constant time.
    #[inline]
    pub fn dual(&self) -> Result<Closure<R>, OutOfMemory>
        ensures value { IfOk result (λ c. c ≡ dual_closure self.now) }
        ensures stands { IfOk result (λ c. (ref : R → Term) → stands_for ref c ≡ dual_of (stands_for ref self.now)) }
    {
        let opened = self.opened.copy()?;
        sharing(self.alloc, &self.root, opened, self.from, !self.is_dual)
    }

    /// The same closure. Constant time.
    #[inline]
    pub fn copy(&self) -> Result<Closure<R>, OutOfMemory>
        ensures { IfOk result (λ c. c ≡ self.now) }
    {
        let opened = self.opened.copy()?;
        sharing(self.alloc, &self.root, opened, self.from, self.is_dual)
    }

    /// The part's nodes in prefix order.
    pub fn nodes(&self) -> &[Node]
        ensures value { result.now ≡ nodes_of self.now.part }
        ensures reached { IsReached (length self.now.opened) (length self.now.parameters) 0 self.now.part }
    {
        let end = self.root.tree.end_of(self.from);
        let (front, _) = self.root.tree.nodes().split_at(end);
        let (_, part) = front.split_at(self.from);
        part
    }

    /// The reference for the bound index that is `#k` outside all quantifiers of the part, or else
    /// the other one. Time is logarithmic in the number of those that were opened.
    pub(crate) fn bound_or(&self, k: u32, other: R) -> R
        ensures { result ≡ get_or self.now.opened k other }
    {
        self.opened.get_or(k as usize, other)
    }

    /// The reference for `Var(k)`, or else the other one. Time is logarithmic in the number of the
    /// variables.
    pub(crate) fn parameter_or(&self, k: u64, other: R) -> R
        ensures { result ≡ get_or self.now.parameters k other }
    {
        self.root.parameters.get_or(k as usize, other)
    }
}
