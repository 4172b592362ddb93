//! The steps of explicit certificates.
use crate::formula::Formula;
use crate::logic::Side;
use fpc_terms::term::TermBuf;

/// A step of an explicit certificate: the rule that a derivation uses at a sequent, with what the rule leaves open.
/// A place counts the stored formulas from 0. From `TrueN` to `Init` the steps are LKF's, behind `Cut` LJF's.
#[derive(Drop)]
pub enum Step {
    TrueN,
    FalseN,
    OrN,
    AndN,
    Every,
    Store,
    Decide(u64),
    TrueP,
    AndP,
    OrP(Side),
    Exists(TermBuf),
    Release,
    Init(u64),
    /// A step of both logics.
    Cut(Formula),
    LTrue,
    LFalse,
    LAnd,
    LOr,
    LExists,
    LStore,
    RTrue,
    RAnd,
    RImp,
    REvery,
    RStore,
    DecideL(u64),
    DecideR,
    FocLAnd(Side),
    FocLImp,
    FocLEvery(TermBuf),
    FocLInit,
    FocLRelease,
    FocRTrue,
    FocRAnd,
    FocROr(Side),
    FocRExists(TermBuf),
    FocRInit(u64),
    FocRRelease,
}
