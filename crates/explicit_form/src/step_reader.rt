//! An explicit certificate that is read in pieces.
ghost use Rattle.std.specs.Prelude.{◌≡◌, ℕ, ◌+◌, ◌∷◌, ◌++◌, [], List, Some, None, Ok, Err, IfOk, IsOk, OnOk, IsTrue, ◌↔◌, ◌<◌, ◌≤◌, length};
ghost use Rattle.fpc_terms.specs.Name.{Agrees, Grows};
ghost use Rattle.fpc_terms.specs.Adding.{AddsOnly};
ghost use Rattle.polarised_formulas.specs.Adding.{IsPartIn};
ghost use Rattle.explicit_form.specs.declared.line.Mode.TheVariants as mode;
ghost use Rattle.explicit_form.specs.LineStanding.{IsNext, IsPlainWord};
ghost use Rattle.polarised_formulas.specs.declared.logic.Logic.{Logic};
ghost use Rattle.polarised_formulas.specs.declared.step.Step.{Step};
ghost use Rattle.explicit_form.specs.StepReading.{Line, Next, State, heading, reading, start, next, next_heading, settle, go, run};
ghost use Rattle.explicit_form.specs.StepLimits.{byte_fault, fault};
ghost use Rattle.explicit_form.specs.declared.word.Word.TheVariants as word;
ghost use Rattle.explicit_form.specs.StepText.{word_text};
ghost use Rattle.explicit_form.specs.Fronts.{IsBegin, IsWordAt};
ghost use Rattle.explicit_form.specs.Feeding.{IsAt, IsTaken, IsLine, IsLineWord, StandsBehind, HasRead, IsFed, IsFinished, is_whole, line_in, line_length, step_of, step_with};

use crate::front::{line_length, place_at, word_at};
use crate::line::{LineReader, Taken, answer_in, push};
use crate::word::{Placed, Word, Written, bare_step, placed_step};
use crate::words::{header_line, other_header};
use fpc_base::refusal::{Code, Refusal, TokenRefusal};
use fpc_terms::names::Names;
use polarised_formulas::PlainRun;
use polarised_formulas::logic::Logic;
use polarised_formulas::step::Step;
use std::alloc::Global;

/// How many bytes a certificate may have.
const MOST_BYTES: usize = 67_108_864;

/// Why a certificate isn't read.
#[derive(Clone, Copy, PartialEq, Eq, Debug)]
pub enum StepFault {
    Refused(Refusal),
    OutOfMemory,
}

/// What was read so far.
#[derive(Clone, Copy, PartialEq, Eq, Debug)]
enum Phase {
    /// A part of the first line.
    Heading,
    /// The first line, and maybe others.
    Lines,
    /// The last line.
    Ended,
    /// A byte that was not taken, and this was told of it.
    Faulty(StepFault),
}

/// An explicit certificate that is read in pieces. It keeps the line in progress and the step of the last line, and nothing
/// of earlier lines. Time is linear in the bytes however they are cut, but for the look-up of names, which is logarithmic in
/// the number of names.
#[derive(Drop)]
pub struct StepReader {
    /// In the first line, its word holds the bytes so far.
    line: LineReader,
    phase: Phase,
    step: Option<Step>,
    /// How many bytes were taken.
    at: usize,
}

impl StepReader {
    /// The reader of a certificate of the logic that is to come. It takes no memory.
    pub fn new(alloc: Global, logic: Logic) -> StepReader
        ensures read { (names : List (List ℕ)) → HasRead logic names [] result }
        ensures none { result.step ≡ None }
    {
        StepReader {
            line: LineReader::new(alloc, logic),
            phase: Phase::Heading,
            step: None,
            at: 0,
        }
    }

    /// Takes bytes up to and with the first end of a line, or all of them, and answers how many. A fault is told at the byte
    /// that it stands at, and again at each later call; no step comes with it.
    pub fn feed(&mut self, names: &mut Names, bytes: &[u8]) -> Result<usize, StepFault>
        ensures grows { Grows names.old names.new }
        ensures only { (logic : Logic) (known : List (List ℕ)) (before : List ℕ) → HasRead logic known before self.old → Grows known names.old
            → AddsOnly (IsPartIn before (line_in bytes.now)) names.old names.new }
        ensures unchanged { (fault : StepFault) → self.old.phase ≡ Phase.Faulty fault → names.new ≡ names.old }
        ensures fed { (logic : Logic) (known : List (List ℕ)) (before : List ℕ) → HasRead logic known before self.old → Grows known names.old
            → IsFed logic names.new before bytes.now result self.new }
        ensures count { IfOk result (λ n. n ≡ line_length bytes.now) }
        ensures within { IfOk result (λ n. n ≤ length bytes.now) }
        ensures moves { 0 < length bytes.now → IfOk result (λ n. 0 < n) }
        ensures stays { (fault : StepFault) → result ≡ Err fault → self.new.phase ≡ Phase.Faulty fault }
        ensures none { (fault : StepFault) → result ≡ Err fault → self.new.step ≡ None }
        ensures again { (fault : StepFault) → self.old.phase ≡ Phase.Faulty fault → result ≡ Err fault }
    {
        if self.is_at_begin(bytes) {
            self.feed_line(names, bytes)
        } else {
            self.feed_anywhere(names, bytes)
        }
    }

    /// The step whose line the last `feed` ended, once.
    pub fn take(&mut self) -> Option<Step>
        ensures step { result ≡ self.old.step }
        ensures once { self.new ≡ record self.old { step = None } }
        ensures kept { (logic : Logic) (names : List (List ℕ)) (bytes : List ℕ) → HasRead logic names bytes self.old → HasRead logic names bytes self.new }
    {
        self.step.take()
    }

    /// Whether the last line was read, and nothing was told since.
    pub fn ended(&self) -> bool
        ensures phase { IsTrue result ↔ (self.now.phase ≡ Phase.Ended) }
        ensures whole { (logic : Logic) (names : List (List ℕ)) (bytes : List ℕ) (number : List ℕ → ℕ) → HasRead logic names bytes self.now → Agrees number names
            → result ≡ is_whole (run number logic start bytes) }
    {
        self.phase == Phase::Ended
    }

    /// Tells at the end of the bytes whether they are a whole certificate. It takes no memory, and answers `OutOfMemory`
    /// only where an earlier `feed` did.
    pub fn finish(&self) -> Result<(), StepFault>
        ensures whole { (logic : Logic) (names : List (List ℕ)) (bytes : List ℕ) (number : List ℕ → ℕ) → HasRead logic names bytes self.now → Agrees number names
            → IsFinished number logic bytes result }
        ensures again { (fault : StepFault) → self.now.phase ≡ Phase.Faulty fault → result ≡ Err fault }
        ensures memory { result ≡ Err StepFault.OutOfMemory → self.now.phase ≡ Phase.Faulty StepFault.OutOfMemory }
    {
        let phase = self.phase;
        match phase {
            Phase::Heading | Phase::Lines => Err(StepFault::Refused(Refusal {
                code: Code::Unexpected,
                at: self.at,
            })),
            Phase::Ended => Ok(()),
            Phase::Faulty(fault) => Err(fault),
        }
    }

    /// Whether no byte of a line was taken, and all the bytes lie below the limit.
    #[inline(always)]
    fn is_at_begin(&self, bytes: &[u8]) -> bool
        ensures begin { IsTrue result → IsBegin self.now }
        ensures room { IsTrue result → self.now.at + length bytes.now ≤ 67108864 }
    {
        match &self.phase {
            Phase::Lines => self.line.is_at_begin() && self.has_room(bytes),
            Phase::Heading | Phase::Ended | Phase::Faulty(_) => false,
        }
    }

    /// Takes bytes at the begin of a line.
    #[inline(always)]
    fn feed_line(&mut self, names: &mut Names, bytes: &[u8]) -> Result<usize, StepFault>
        requires begin { IsBegin self.old }
        requires room { self.old.at + length bytes.now ≤ 67108864 }
        ensures grows { Grows names.old names.new }
        ensures only { (logic : Logic) (before : List ℕ) → StandsBehind logic names.old before self.old → AddsOnly (IsPartIn before (line_in bytes.now)) names.old names.new }
        ensures line { (number : List ℕ → ℕ) (logic : Logic) (st : State) → Agrees number names.new → IsAt logic st self.old
            → IsLine number logic st self.old.at bytes.now result self.new }
        ensures count { IfOk result (λ n. n ≡ line_length bytes.now) }
        ensures place { IfOk result (λ n. self.new.at ≡ self.old.at + n) }
        ensures stays { (fault : StepFault) → result ≡ Err fault → self.new.phase ≡ Phase.Faulty fault }
        ensures none { (fault : StepFault) → result ≡ Err fault → self.new.step ≡ None }
    {
        match word_at(self.line.logic, bytes) {
            Some((word, n)) => self.feed_word(names, word, n, bytes),
            None => self.feed_bytes(names, bytes),
        }
    }

    /// Takes bytes that begin with a word of so many bytes.
    #[inline(always)]
    fn feed_word(
        &mut self,
        names: &mut Names,
        word: Word,
        n: usize,
        bytes: &[u8],
    ) -> Result<usize, StepFault>
        requires begin { IsBegin self.old }
        requires word { IsWordAt self.old.line.logic bytes.now word }
        requires length { n ≡ length (word_text word) }
        requires room { self.old.at + length bytes.now ≤ 67108864 }
        ensures grows { Grows names.old names.new }
        ensures only { (logic : Logic) (before : List ℕ) → StandsBehind logic names.old before self.old → AddsOnly (IsPartIn before (line_in bytes.now)) names.old names.new }
        ensures line { (number : List ℕ → ℕ) (logic : Logic) (st : State) → Agrees number names.new → IsAt logic st self.old
            → IsLine number logic st self.old.at bytes.now result self.new }
        ensures count { IfOk result (λ n. n ≡ line_length bytes.now) }
        ensures place { IfOk result (λ n. self.new.at ≡ self.old.at + n) }
        ensures stays { (fault : StepFault) → result ≡ Err fault → self.new.phase ≡ Phase.Faulty fault }
        ensures none { (fault : StepFault) → result ≡ Err fault → self.new.step ≡ None }
    {
        match word {
            Word::Bare(bare) => {
                self.at += n;
                self.step = Some(bare_step(bare));
                Ok(n)
            }
            Word::Placed(placed) => self.feed_place(names, placed, n, bytes),
            Word::Written(_) | Word::End => self.feed_other(names, word, n, bytes),
        }
    }

    /// Takes bytes that begin with a word of so many bytes. It is out of line, which keeps the way of the other words short.
    #[inline(never)]
    fn feed_other(
        &mut self,
        names: &mut Names,
        word: Word,
        n: usize,
        bytes: &[u8],
    ) -> Result<usize, StepFault>
        requires begin { IsBegin self.old }
        requires word { IsWordAt self.old.line.logic bytes.now word }
        requires length { n ≡ length (word_text word) }
        requires room { self.old.at + length bytes.now ≤ 67108864 }
        ensures grows { Grows names.old names.new }
        ensures only { (logic : Logic) (before : List ℕ) → StandsBehind logic names.old before self.old → AddsOnly (IsPartIn before (line_in bytes.now)) names.old names.new }
        ensures line { (number : List ℕ → ℕ) (logic : Logic) (st : State) → Agrees number names.new → IsAt logic st self.old
            → IsLine number logic st self.old.at bytes.now result self.new }
        ensures count { IfOk result (λ n. n ≡ line_length bytes.now) }
        ensures place { IfOk result (λ n. self.new.at ≡ self.old.at + n) }
        ensures stays { (fault : StepFault) → result ≡ Err fault → self.new.phase ≡ Phase.Faulty fault }
        ensures none { (fault : StepFault) → result ≡ Err fault → self.new.step ≡ None }
    {
        match word {
            Word::Written(written) => self.feed_written(names, written, n, bytes),
            Word::Bare(_) | Word::Placed(_) | Word::End => self.feed_bytes(names, bytes),
        }
    }

    /// Takes bytes that begin with a word of so many bytes, behind which a place comes.
    #[inline(always)]
    fn feed_place(
        &mut self,
        names: &mut Names,
        placed: Placed,
        n: usize,
        bytes: &[u8],
    ) -> Result<usize, StepFault>
        requires begin { IsBegin self.old }
        requires word { IsWordAt self.old.line.logic bytes.now (word.Placed placed) }
        requires length { n ≡ length (word_text (word.Placed placed)) }
        requires room { self.old.at + length bytes.now ≤ 67108864 }
        ensures grows { Grows names.old names.new }
        ensures only { (logic : Logic) (before : List ℕ) → StandsBehind logic names.old before self.old → AddsOnly (IsPartIn before (line_in bytes.now)) names.old names.new }
        ensures line { (number : List ℕ → ℕ) (logic : Logic) (st : State) → Agrees number names.new → IsAt logic st self.old
            → IsLine number logic st self.old.at bytes.now result self.new }
        ensures count { IfOk result (λ n. n ≡ line_length bytes.now) }
        ensures place { IfOk result (λ n. self.new.at ≡ self.old.at + n) }
        ensures stays { (fault : StepFault) → result ≡ Err fault → self.new.phase ≡ Phase.Faulty fault }
        ensures none { (fault : StepFault) → result ≡ Err fault → self.new.step ≡ None }
    {
        let (_, rest) = bytes.split_at(n);
        match place_at(rest) {
            Some((place, more)) => {
                self.at += n + more;
                self.step = Some(placed_step(placed, u64::from(place)));
                Ok(n + more)
            }
            None => self.feed_bytes(names, bytes),
        }
    }

    /// Takes bytes that begin with a word of so many bytes, behind which a term or a formula comes.
    #[inline(always)]
    fn feed_written(
        &mut self,
        names: &mut Names,
        written: Written,
        n: usize,
        bytes: &[u8],
    ) -> Result<usize, StepFault>
        requires begin { IsBegin self.old }
        requires word { IsWordAt self.old.line.logic bytes.now (word.Written written) }
        requires length { n ≡ length (word_text (word.Written written)) }
        requires room { self.old.at + length bytes.now ≤ 67108864 }
        ensures grows { Grows names.old names.new }
        ensures only { (logic : Logic) (before : List ℕ) → StandsBehind logic names.old before self.old → AddsOnly (IsPartIn before (line_in bytes.now)) names.old names.new }
        ensures line { (number : List ℕ → ℕ) (logic : Logic) (st : State) → Agrees number names.new → IsAt logic st self.old
            → IsLine number logic st self.old.at bytes.now result self.new }
        ensures count { IfOk result (λ n. n ≡ line_length bytes.now) }
        ensures place { IfOk result (λ n. self.new.at ≡ self.old.at + n) }
        ensures stays { (fault : StepFault) → result ≡ Err fault → self.new.phase ≡ Phase.Faulty fault }
        ensures none { (fault : StepFault) → result ≡ Err fault → self.new.step ≡ None }
    {
        self.at += n;
        self.step = None;
        self.line.begin_plain(written);
        let (_, rest) = bytes.split_at(n);
        match self.feed_plain(names, written, rest) {
            Ok(more) => Ok(n + more),
            Err(fault) => Err(fault),
        }
    }

    /// Takes bytes wherever the reader stands.
    #[inline(never)]
    fn feed_anywhere(&mut self, names: &mut Names, bytes: &[u8]) -> Result<usize, StepFault>
        ensures grows { Grows names.old names.new }
        ensures only { (logic : Logic) (before : List ℕ) → StandsBehind logic names.old before self.old → AddsOnly (IsPartIn before (line_in bytes.now)) names.old names.new }
        ensures line { (number : List ℕ → ℕ) (logic : Logic) (st : State) → Agrees number names.new → IsAt logic st self.old
            → IsLine number logic st self.old.at bytes.now result self.new }
        ensures count { IfOk result (λ n. n ≡ line_length bytes.now) }
        ensures place { IfOk result (λ n. self.new.at ≡ self.old.at + n) }
        ensures stays { (fault : StepFault) → result ≡ Err fault → self.new.phase ≡ Phase.Faulty fault }
        ensures none { (fault : StepFault) → result ≡ Err fault → self.new.step ≡ None }
        ensures unchanged { (fault : StepFault) → self.old.phase ≡ Phase.Faulty fault → names.new ≡ names.old }
        ensures again { (fault : StepFault) → self.old.phase ≡ Phase.Faulty fault → result ≡ Err fault }
    {
        let phase = self.phase;
        match phase {
            Phase::Lines => self.feed_rest(names, bytes),
            Phase::Heading | Phase::Ended => self.feed_bytes(names, bytes),
            Phase::Faulty(fault) => Err(self.fail(fault)),
        }
    }

    /// Takes bytes behind the first line.
    fn feed_rest(&mut self, names: &mut Names, bytes: &[u8]) -> Result<usize, StepFault>
        requires { self.old.phase ≡ Phase.Lines }
        ensures grows { Grows names.old names.new }
        ensures only { (logic : Logic) (before : List ℕ) → StandsBehind logic names.old before self.old → AddsOnly (IsPartIn before (line_in bytes.now)) names.old names.new }
        ensures line { (number : List ℕ → ℕ) (logic : Logic) (st : State) → Agrees number names.new → IsAt logic st self.old
            → IsLine number logic st self.old.at bytes.now result self.new }
        ensures count { IfOk result (λ n. n ≡ line_length bytes.now) }
        ensures place { IfOk result (λ n. self.new.at ≡ self.old.at + n) }
        ensures stays { (fault : StepFault) → result ≡ Err fault → self.new.phase ≡ Phase.Faulty fault }
        ensures none { (fault : StepFault) → result ≡ Err fault → self.new.step ≡ None }
    {
        if self.has_room(bytes) {
            if let Some(written) = self.line.written() {
                self.step = None;
                return self.feed_plain(names, written, bytes);
            }
        }
        self.feed_bytes(names, bytes)
    }

    /// Whether all the bytes lie below the limit.
    #[inline(always)]
    fn has_room(&self, bytes: &[u8]) -> bool
        ensures { IsTrue result → self.now.at + length bytes.now ≤ 67108864 }
    {
        bytes.len() <= MOST_BYTES && self.at <= MOST_BYTES - bytes.len()
    }

    /// Takes bytes of a term or a formula.
    fn feed_plain(
        &mut self,
        names: &mut Names,
        written: Written,
        bytes: &[u8],
    ) -> Result<usize, StepFault>
        requires none { self.old.step ≡ None }
        requires phase { self.old.phase ≡ Phase.Lines }
        requires mode { self.old.line.mode ≡ mode.InPlain written }
        requires room { self.old.at + length bytes.now ≤ 67108864 }
        ensures grows { Grows names.old names.new }
        ensures only { (logic : Logic) (before : List ℕ) → StandsBehind logic names.old before self.old → AddsOnly (IsPartIn before (line_in bytes.now)) names.old names.new }
        ensures line { (number : List ℕ → ℕ) (logic : Logic) (st : State) → Agrees number names.new → IsAt logic st self.old
            → IsLine number logic st self.old.at bytes.now result self.new }
        ensures count { IfOk result (λ n. n ≡ line_length bytes.now) }
        ensures within { IfOk result (λ n. n ≤ length bytes.now) }
        ensures place { IfOk result (λ n. self.new.at ≡ self.old.at + n) }
        ensures stays { (fault : StepFault) → result ≡ Err fault → self.new.phase ≡ Phase.Faulty fault }
        ensures none { (fault : StepFault) → result ≡ Err fault → self.new.step ≡ None }
    {
        let n = line_length(bytes);
        let (line, _) = bytes.split_at(n);
        let PlainRun { passed, last } = self.line.plain.bytes(names, line);
        names.distinct();
        let answer = answer_in(written, last);
        match self.take_answer(answer, self.at + passed) {
            Ok(()) => {
                self.at += n;
                Ok(n)
            }
            Err(fault) => Err(fault),
        }
    }

    /// Takes bytes one by one.
    #[inline(never)]
    fn feed_bytes(&mut self, names: &mut Names, bytes: &[u8]) -> Result<usize, StepFault>
        ensures grows { Grows names.old names.new }
        ensures only { (logic : Logic) (before : List ℕ) → StandsBehind logic names.old before self.old → AddsOnly (IsPartIn before (line_in bytes.now)) names.old names.new }
        ensures line { (number : List ℕ → ℕ) (logic : Logic) (st : State) → Agrees number names.new → IsAt logic st self.old
            → IsLine number logic st self.old.at bytes.now result self.new }
        ensures count { IfOk result (λ n. n ≡ line_length bytes.now) }
        ensures within { IfOk result (λ n. n ≤ length bytes.now) }
        ensures place { IfOk result (λ n. self.new.at ≡ self.old.at + n) }
        ensures stays { (fault : StepFault) → result ≡ Err fault → self.new.phase ≡ Phase.Faulty fault }
        ensures none { (fault : StepFault) → result ≡ Err fault → self.new.step ≡ None }
    {
        self.step = None;
        for (i, b) in bytes.iter().enumerate() {
            match self.byte(names, *b) {
                Ok(()) => {}
                Err(fault) => {
                    names.distinct();
                    return Err(fault);
                }
            }
            if *b == b'\n' {
                names.distinct();
                return Ok(i + 1);
            }
        }
        names.distinct();
        Ok(bytes.len())
    }

    /// Takes the next byte.
    fn byte(&mut self, names: &mut Names, b: u8) -> Result<(), StepFault>
        ensures grows { Grows names.old names.new }
        ensures only { AddsOnly (IsLineWord self.old) names.old names.new }
        ensures taken { (number : List ℕ → ℕ) (logic : Logic) (st : State) → Agrees number names.new → IsAt logic st self.old
            → IsTaken logic (fault self.old.at st (go number logic st b)) (go number logic st b) (step_with number logic st b) result self.new }
        ensures place { IfOk result (λ u. self.new.at ≡ self.old.at + 1) }
        ensures stays { (fault : StepFault) → result ≡ Err fault → self.new.phase ≡ Phase.Faulty fault }
        ensures none { (fault : StepFault) → result ≡ Err fault → self.new.step ≡ None }
    {
        self.step = None;
        let at = self.at;
        if at >= MOST_BYTES {
            return Err(self.refuse(Code::TooLarge, at));
        }
        match self.next_byte(names, b) {
            Ok(()) => {
                self.at = at + 1;
                Ok(())
            }
            Err(fault) => Err(fault),
        }
    }

    /// Takes the next byte, whatever its place.
    fn next_byte(&mut self, names: &mut Names, b: u8) -> Result<(), StepFault>
        ensures grows { Grows names.old names.new }
        ensures only { AddsOnly (IsLineWord self.old) names.old names.new }
        ensures taken { (number : List ℕ → ℕ) (logic : Logic) (st : State) → Agrees number names.new → IsAt logic st self.old → self.old.step ≡ None
            → IsTaken logic (byte_fault self.old.at st (go number logic st b)) (go number logic st b) (step_with number logic st b) result self.new }
        ensures stays { (fault : StepFault) → result ≡ Err fault → self.new.phase ≡ Phase.Faulty fault }
        ensures none { (fault : StepFault) → result ≡ Err fault → self.new.step ≡ None }
    {
        let phase = self.phase;
        match phase {
            Phase::Heading => self.heading_byte(b),
            Phase::Lines => self.line_byte(names, b),
            Phase::Ended => Err(self.refuse(Code::Unexpected, self.at)),
            Phase::Faulty(fault) => Err(self.fail(fault)),
        }
    }

    fn heading_byte(&mut self, b: u8) -> Result<(), StepFault>
        ensures taken { (logic : Logic) (w : List ℕ) → IsAt logic (heading w) self.old → self.old.step ≡ None
            → IsTaken logic (byte_fault self.old.at (heading w) (next_heading logic (w ++ b ∷ []))) (next_heading logic (w ++ b ∷ [])) None result self.new }
        ensures stays { (fault : StepFault) → result ≡ Err fault → self.new.phase ≡ Phase.Faulty fault }
        ensures none { (fault : StepFault) → result ≡ Err fault → self.new.step ≡ None }
    {
        match push(&mut self.line.word, b) {
            Ok(()) => self.end_heading(),
            Err(_) => Err(self.fail(StepFault::OutOfMemory)),
        }
    }

    /// Goes on behind a byte of the first line.
    fn end_heading(&mut self) -> Result<(), StepFault>
        ensures taken { (logic : Logic) (w x : List ℕ) → IsAt logic (heading w) self.old → self.old.step ≡ None
            → IsTaken logic (byte_fault self.old.at (heading x) (next_heading logic w)) (next_heading logic w) None result self.new }
        ensures stays { (fault : StepFault) → result ≡ Err fault → self.new.phase ≡ Phase.Faulty fault }
        ensures none { (fault : StepFault) → result ≡ Err fault → self.new.step ≡ None }
    {
        let logic = self.line.logic;
        let word = self.line.word.as_slice();
        if word == header_line(logic) {
            self.line.begin();
            self.phase = Phase::Lines;
            Ok(())
        } else if word == other_header(logic) {
            Err(self.refuse(Code::WrongCalculus, 6))
        } else if header_line(logic).starts_with(word) || other_header(logic).starts_with(word) {
            Ok(())
        } else {
            Err(self.refuse(Code::Unexpected, self.at))
        }
    }

    fn line_byte(&mut self, names: &mut Names, b: u8) -> Result<(), StepFault>
        ensures grows { Grows names.old names.new }
        ensures only { AddsOnly (IsPlainWord self.old.line) names.old names.new }
        ensures taken { (number : List ℕ → ℕ) (logic : Logic) (done : List Step) (l : Line) → Agrees number names.new → IsAt logic (reading done l) self.old → self.old.step ≡ None
            → IsTaken logic (byte_fault self.old.at (reading done l) (settle done (next number logic l b))) (settle done (next number logic l b)) (step_of (next number logic l b)) result self.new }
        ensures stays { (fault : StepFault) → result ≡ Err fault → self.new.phase ≡ Phase.Faulty fault }
        ensures none { (fault : StepFault) → result ≡ Err fault → self.new.step ≡ None }
    {
        let answer = self.line.byte(names, b);
        self.take_answer(answer, self.at)
    }

    /// Takes what the reader of a line answers to the byte at a place.
    #[inline(always)]
    fn take_answer(
        &mut self,
        answer: Result<Taken, TokenRefusal>,
        at: usize,
    ) -> Result<(), StepFault>
        ensures taken { (logic : Logic) (done : List Step) (l : Line) (n : Next) → self.old.phase ≡ Phase.Lines → self.old.step ≡ None → IsNext logic l answer self.old.line n
            → IsTaken logic (byte_fault at (reading done l) (settle done n)) (settle done n) (step_of n) result self.new }
        ensures ok { OnOk result (IsOk answer) }
        ensures place { self.new.at ≡ self.old.at }
        ensures stays { (fault : StepFault) → result ≡ Err fault → self.new.phase ≡ Phase.Faulty fault }
        ensures none { (fault : StepFault) → result ≡ Err fault → self.new.step ≡ None }
    {
        match answer {
            Ok(Taken::Going) => Ok(()),
            Ok(Taken::Whole(step)) => {
                self.line.begin();
                self.step = Some(step);
                Ok(())
            }
            Ok(Taken::Last) => {
                self.phase = Phase::Ended;
                Ok(())
            }
            Err(TokenRefusal::Refused(code)) => Err(self.refuse(code, at)),
            Err(TokenRefusal::OutOfMemory) => Err(self.fail(StepFault::OutOfMemory)),
        }
    }

    /// Tells a refusal at a place.
    fn refuse(&mut self, code: Code, at: usize) -> StepFault
        ensures fault { result ≡ StepFault.Refused (record { code = code; at = at }) }
        ensures value { self.new ≡ record self.old { phase = Phase.Faulty result; step = None } }
    {
        self.fail(StepFault::Refused(Refusal { code, at }))
    }

    /// Tells a fault, and keeps it in place of a step.
    fn fail(&mut self, fault: StepFault) -> StepFault
        ensures fault { result ≡ fault }
        ensures value { self.new ≡ record self.old { phase = Phase.Faulty fault; step = None } }
    {
        self.step = None;
        self.phase = Phase::Faulty(fault);
        fault
    }
}
