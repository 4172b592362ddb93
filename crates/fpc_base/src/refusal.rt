//! What is told of bad input.
ghost use Rattle.std.specs.Prelude.{◌≡◌, Some};
ghost use Rattle.fpc_base.specs.Refusal.{code_number, code_name, placed};

use crate::outside::OutOfMemory;
use std::alloc::{AllocError, AllocFailed};
use std::fmt;

/// Why a file is refused. Its number is its place in this list, from 0.
#[derive(Clone, Copy, PartialEq, Eq, Debug)]
pub enum Code {
    /// The file holds something that this version can't read yet.
    NotBuilt,
    /// A byte begins no token.
    BadByte,
    /// The file so far begins no file of the grammar.
    Unexpected,
    /// Formulas are nested more than 10,000 deep.
    TooDeep,
    /// A name or variable has more than 255 bytes, or a number more than 9 digits.
    LongName,
    /// A name has more than 255 arguments or parameters.
    ManyArguments,
    /// Two formulas are declared by the same name.
    DuplicateFormula,
    /// The file has more bytes than its role allows.
    TooLarge,
    /// The file is for the other calculus.
    WrongCalculus,
    /// A clause has more than 255 variables.
    ManyVariables,
}

impl Code {
    /// The number by which the code is printed.
    pub fn number(self) -> u8
        ensures { result ≡ code_number self }
    {
        match self {
            Code::NotBuilt => 0,
            Code::BadByte => 1,
            Code::Unexpected => 2,
            Code::TooDeep => 3,
            Code::LongName => 4,
            Code::ManyArguments => 5,
            Code::DuplicateFormula => 6,
            Code::TooLarge => 7,
            Code::WrongCalculus => 8,
            Code::ManyVariables => 9,
        }
    }
}

impl fmt::Display for Code {
    ghost output = { λ code. Some (code_name code) };

    fn fmt<W: fmt::Write>(&self, f: &mut fmt::Formatter<W>) -> fmt::Result {
        f.write_str(match self {
            Code::NotBuilt => "NotBuilt",
            Code::BadByte => "BadByte",
            Code::Unexpected => "Unexpected",
            Code::TooDeep => "TooDeep",
            Code::LongName => "LongName",
            Code::ManyArguments => "ManyArguments",
            Code::DuplicateFormula => "DuplicateFormula",
            Code::TooLarge => "TooLarge",
            Code::WrongCalculus => "WrongCalculus",
            Code::ManyVariables => "ManyVariables",
        })
    }
}

/// A refusal: its reason, and the place in the file in bytes, counted from 0.
#[derive(Clone, Copy, PartialEq, Eq, Debug)]
pub struct Refusal {
    pub code: Code,
    pub at: usize,
}

/// Why a text was not read.
#[derive(Clone, Copy, PartialEq, Eq, Debug)]
pub enum ParseRefusal {
    Refused(Refusal),
    OutOfMemory,
}

impl From<OutOfMemory> for ParseRefusal {
    ghost use Rattle.std.specs.Prelude.{◌≡◌};
    ghost use Rattle.fpc_base.specs.declared.refusal.ParseRefusal.TheVariants.{OutOfMemory};

    ghost from_gives = { λ _ e. e ≡ OutOfMemory };

    fn from(_e: OutOfMemory) -> ParseRefusal {
        ParseRefusal::OutOfMemory
    }
}

impl From<AllocError> for ParseRefusal {
    ghost use Rattle.std.specs.Prelude.{◌≡◌};
    ghost use Rattle.fpc_base.specs.declared.refusal.ParseRefusal.TheVariants.{OutOfMemory};

    ghost from_gives = { λ _ e. e ≡ OutOfMemory };

    fn from(_e: AllocError) -> ParseRefusal {
        ParseRefusal::OutOfMemory
    }
}

impl<T: Drop> From<AllocFailed<T>> for ParseRefusal {
    ghost use Rattle.std.specs.Prelude.{◌≡◌};
    ghost use Rattle.fpc_base.specs.declared.refusal.ParseRefusal.TheVariants.{OutOfMemory};

    ghost from_gives = { λ _ e. e ≡ OutOfMemory };

    fn from(_e: AllocFailed<T>) -> ParseRefusal {
        ParseRefusal::OutOfMemory
    }
}

/// Why a source was not read to its end.
#[derive(Clone, Copy, PartialEq, Eq, Debug)]
pub enum ReadRefusal {
    /// A read failed.
    Failed,
    /// The source held more bytes than allowed.
    TooLarge,
    OutOfMemory,
}

/// Why a token was not taken; its place is known where it was read.
#[derive(Clone, Copy, PartialEq, Eq, Debug)]
pub enum TokenRefusal {
    Refused(Code),
    OutOfMemory,
}

impl TokenRefusal {
    /// The refusal of a file, with the place of the token.
    pub fn placed(self, at: usize) -> ParseRefusal
        ensures { result ≡ placed self at }
    {
        match self {
            TokenRefusal::Refused(code) => ParseRefusal::Refused(Refusal { code, at }),
            TokenRefusal::OutOfMemory => ParseRefusal::OutOfMemory,
        }
    }
}

impl From<OutOfMemory> for TokenRefusal {
    ghost use Rattle.std.specs.Prelude.{◌≡◌};
    ghost use Rattle.fpc_base.specs.declared.refusal.TokenRefusal.TheVariants.{OutOfMemory};

    ghost from_gives = { λ _ e. e ≡ OutOfMemory };

    fn from(_e: OutOfMemory) -> TokenRefusal {
        TokenRefusal::OutOfMemory
    }
}

impl From<AllocError> for TokenRefusal {
    ghost use Rattle.std.specs.Prelude.{◌≡◌};
    ghost use Rattle.fpc_base.specs.declared.refusal.TokenRefusal.TheVariants.{OutOfMemory};

    ghost from_gives = { λ _ e. e ≡ OutOfMemory };

    fn from(_e: AllocError) -> TokenRefusal {
        TokenRefusal::OutOfMemory
    }
}
