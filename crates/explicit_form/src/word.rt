//! The words that the lines of certificates begin with.
ghost use Rattle.std.specs.Prelude.{◌≡◌};
ghost use Rattle.explicit_form.specs.StepText.{step_word, word_text, words};
ghost use Rattle.explicit_form.specs.StepReading.{bare_step, placed_step};
ghost use Rattle.explicit_form.specs.declared.word.Word.TheVariants as word;

use polarised_formulas::logic::{Logic, Side};
use polarised_formulas::step::Step;

/// A step whose line is its word alone.
#[derive(Clone, Copy, PartialEq, Eq, Debug)]
pub enum Bare {
    TrueN,
    FalseN,
    OrN,
    AndN,
    Every,
    Store,
    TrueP,
    AndP,
    OrP(Side),
    Release,
    LTrue,
    LFalse,
    LAnd,
    LOr,
    LExists,
    LStore,
    RTrue,
    RAnd,
    RImp,
    REvery,
    RStore,
    DecideR,
    FocLAnd(Side),
    FocLImp,
    FocLInit,
    FocLRelease,
    FocRTrue,
    FocRAnd,
    FocROr(Side),
    FocRRelease,
}

/// A step with a place behind its word.
#[derive(Clone, Copy, PartialEq, Eq, Debug)]
pub enum Placed {
    Decide,
    Init,
    DecideL,
    FocRInit,
}

/// A step with a term, or for `Cut` a formula, behind its word.
#[derive(Clone, Copy, PartialEq, Eq, Debug)]
pub enum Written {
    Exists,
    FocLEvery,
    FocRExists,
    Cut,
}

/// The word that a line begins with.
#[derive(Clone, Copy, PartialEq, Eq, Debug)]
pub enum Word {
    Bare(Bare),
    Placed(Placed),
    Written(Written),
    /// The last line.
    End,
}

const LKF_WORDS: [Word; 16] = [
    Word::Bare(Bare::TrueN),
    Word::Bare(Bare::FalseN),
    Word::Bare(Bare::OrN),
    Word::Bare(Bare::AndN),
    Word::Bare(Bare::Every),
    Word::Bare(Bare::Store),
    Word::Placed(Placed::Decide),
    Word::Bare(Bare::TrueP),
    Word::Bare(Bare::AndP),
    Word::Bare(Bare::OrP(Side::Left)),
    Word::Bare(Bare::OrP(Side::Right)),
    Word::Written(Written::Exists),
    Word::Bare(Bare::Release),
    Word::Placed(Placed::Init),
    Word::Written(Written::Cut),
    Word::End,
];

const LJF_WORDS: [Word; 28] = [
    Word::Bare(Bare::LTrue),
    Word::Bare(Bare::LFalse),
    Word::Bare(Bare::LAnd),
    Word::Bare(Bare::LOr),
    Word::Bare(Bare::LExists),
    Word::Bare(Bare::LStore),
    Word::Bare(Bare::RTrue),
    Word::Bare(Bare::RAnd),
    Word::Bare(Bare::RImp),
    Word::Bare(Bare::REvery),
    Word::Bare(Bare::RStore),
    Word::Placed(Placed::DecideL),
    Word::Bare(Bare::DecideR),
    Word::Bare(Bare::FocLAnd(Side::Left)),
    Word::Bare(Bare::FocLAnd(Side::Right)),
    Word::Bare(Bare::FocLImp),
    Word::Written(Written::FocLEvery),
    Word::Bare(Bare::FocLInit),
    Word::Bare(Bare::FocLRelease),
    Word::Bare(Bare::FocRTrue),
    Word::Bare(Bare::FocRAnd),
    Word::Bare(Bare::FocROr(Side::Left)),
    Word::Bare(Bare::FocROr(Side::Right)),
    Word::Written(Written::FocRExists),
    Word::Placed(Placed::FocRInit),
    Word::Bare(Bare::FocRRelease),
    Word::Written(Written::Cut),
    Word::End,
];

/// The words of a logic's lines.
pub fn words(logic: Logic) -> &'static [Word]
    ensures { result.now ≡ words logic }
{
    match logic {
        Logic::Lkf => &LKF_WORDS,
        Logic::Ljf => &LJF_WORDS,
    }
}

/// The word that the line of a step begins with.
pub fn step_word(step: &Step) -> Word
    ensures { result ≡ step_word step.now }
{
    match step {
        Step::Decide(_) => Word::Placed(Placed::Decide),
        Step::Init(_) => Word::Placed(Placed::Init),
        Step::DecideL(_) => Word::Placed(Placed::DecideL),
        Step::FocRInit(_) => Word::Placed(Placed::FocRInit),
        Step::Exists(_) => Word::Written(Written::Exists),
        Step::FocLEvery(_) => Word::Written(Written::FocLEvery),
        Step::FocRExists(_) => Word::Written(Written::FocRExists),
        Step::Cut(_) => Word::Written(Written::Cut),
        Step::TrueN => Word::Bare(Bare::TrueN),
        Step::FalseN => Word::Bare(Bare::FalseN),
        Step::OrN => Word::Bare(Bare::OrN),
        Step::AndN => Word::Bare(Bare::AndN),
        Step::Every => Word::Bare(Bare::Every),
        Step::Store => Word::Bare(Bare::Store),
        Step::TrueP => Word::Bare(Bare::TrueP),
        Step::AndP => Word::Bare(Bare::AndP),
        Step::OrP(side) => Word::Bare(Bare::OrP(*side)),
        Step::Release => Word::Bare(Bare::Release),
        Step::LTrue => Word::Bare(Bare::LTrue),
        Step::LFalse => Word::Bare(Bare::LFalse),
        Step::LAnd => Word::Bare(Bare::LAnd),
        Step::LOr => Word::Bare(Bare::LOr),
        Step::LExists => Word::Bare(Bare::LExists),
        Step::LStore => Word::Bare(Bare::LStore),
        Step::RTrue => Word::Bare(Bare::RTrue),
        Step::RAnd => Word::Bare(Bare::RAnd),
        Step::RImp => Word::Bare(Bare::RImp),
        Step::REvery => Word::Bare(Bare::REvery),
        Step::RStore => Word::Bare(Bare::RStore),
        Step::DecideR => Word::Bare(Bare::DecideR),
        Step::FocLAnd(side) => Word::Bare(Bare::FocLAnd(*side)),
        Step::FocLImp => Word::Bare(Bare::FocLImp),
        Step::FocLInit => Word::Bare(Bare::FocLInit),
        Step::FocLRelease => Word::Bare(Bare::FocLRelease),
        Step::FocRTrue => Word::Bare(Bare::FocRTrue),
        Step::FocRAnd => Word::Bare(Bare::FocRAnd),
        Step::FocROr(side) => Word::Bare(Bare::FocROr(*side)),
        Step::FocRRelease => Word::Bare(Bare::FocRRelease),
    }
}

/// The bytes of a word with the byte behind it: the end of its line, or a blank.
pub fn word_bytes(word: Word) -> &'static [u8]
    ensures { result.now ≡ word_text word }
{
    match word {
        Word::Bare(bare) => bare_line(bare),
        Word::Placed(Placed::Decide) => b"decide ",
        Word::Placed(Placed::Init) => b"init ",
        Word::Placed(Placed::DecideL) => b"decide-l ",
        Word::Placed(Placed::FocRInit) => b"rf-init ",
        Word::Written(Written::Exists) => b"some ",
        Word::Written(Written::FocLEvery) => b"lf-all ",
        Word::Written(Written::FocRExists) => b"rf-some ",
        Word::Written(Written::Cut) => b"cut ",
        Word::End => b"end\n",
    }
}

fn bare_line(bare: Bare) -> &'static [u8]
    ensures { result.now ≡ word_text (word.Bare bare) }
{
    match bare {
        Bare::TrueN => b"tt-\n",
        Bare::FalseN => b"ff-\n",
        Bare::OrN => b"or-\n",
        Bare::AndN => b"and-\n",
        Bare::Every => b"all\n",
        Bare::Store => b"store\n",
        Bare::TrueP => b"tt+\n",
        Bare::AndP => b"and+\n",
        Bare::OrP(Side::Left) => b"or+ left\n",
        Bare::OrP(Side::Right) => b"or+ right\n",
        Bare::Release => b"release\n",
        Bare::LTrue => b"l-tt\n",
        Bare::LFalse => b"l-ff\n",
        Bare::LAnd => b"l-and\n",
        Bare::LOr => b"l-or\n",
        Bare::LExists => b"l-some\n",
        Bare::LStore => b"l-store\n",
        Bare::RTrue => b"r-tt\n",
        Bare::RAnd => b"r-and\n",
        Bare::RImp => b"r-imp\n",
        Bare::REvery => b"r-all\n",
        Bare::RStore => b"r-store\n",
        Bare::DecideR => b"decide-r\n",
        Bare::FocLAnd(Side::Left) => b"lf-and left\n",
        Bare::FocLAnd(Side::Right) => b"lf-and right\n",
        Bare::FocLImp => b"lf-imp\n",
        Bare::FocLInit => b"lf-init\n",
        Bare::FocLRelease => b"lf-release\n",
        Bare::FocRTrue => b"rf-tt\n",
        Bare::FocRAnd => b"rf-and\n",
        Bare::FocROr(Side::Left) => b"rf-or left\n",
        Bare::FocROr(Side::Right) => b"rf-or right\n",
        Bare::FocRRelease => b"rf-release\n",
    }
}

/// The step whose line is a word alone.
#[inline(always)]
pub fn bare_step(bare: Bare) -> Step
    ensures { result ≡ bare_step bare }
{
    match bare {
        Bare::TrueN => Step::TrueN,
        Bare::FalseN => Step::FalseN,
        Bare::OrN => Step::OrN,
        Bare::AndN => Step::AndN,
        Bare::Every => Step::Every,
        Bare::Store => Step::Store,
        Bare::TrueP => Step::TrueP,
        Bare::AndP => Step::AndP,
        Bare::OrP(side) => Step::OrP(side),
        Bare::Release => Step::Release,
        Bare::LTrue => Step::LTrue,
        Bare::LFalse => Step::LFalse,
        Bare::LAnd => Step::LAnd,
        Bare::LOr => Step::LOr,
        Bare::LExists => Step::LExists,
        Bare::LStore => Step::LStore,
        Bare::RTrue => Step::RTrue,
        Bare::RAnd => Step::RAnd,
        Bare::RImp => Step::RImp,
        Bare::REvery => Step::REvery,
        Bare::RStore => Step::RStore,
        Bare::DecideR => Step::DecideR,
        Bare::FocLAnd(side) => Step::FocLAnd(side),
        Bare::FocLImp => Step::FocLImp,
        Bare::FocLInit => Step::FocLInit,
        Bare::FocLRelease => Step::FocLRelease,
        Bare::FocRTrue => Step::FocRTrue,
        Bare::FocRAnd => Step::FocRAnd,
        Bare::FocROr(side) => Step::FocROr(side),
        Bare::FocRRelease => Step::FocRRelease,
    }
}

/// The step of a word with its place.
#[inline(always)]
pub fn placed_step(placed: Placed, place: u64) -> Step
    ensures { result ≡ placed_step placed place }
{
    match placed {
        Placed::Decide => Step::Decide(place),
        Placed::Init => Step::Init(place),
        Placed::DecideL => Step::DecideL(place),
        Placed::FocRInit => Step::FocRInit(place),
    }
}
