//! The definitions that are built in.
ghost use Rattle.std.specs.Prelude.{◌≡◌, ◌≤◌, length};
ghost use Rattle.fpc_cli.specs.BuiltIn.{built_in_text};

/// The definition `cnf`: a goal is broken up, and each of its branches closes with two literals
/// that are dual to each other, or with a unit.
pub const CNF: &[u8] = b"lkf\n\
    and_c(cnf,cnf,cnf).\n\
    or_c(cnf,cnf).\n\
    ff_c(cnf,cnf).\n\
    all_c(cnf,Y,cnf).\n\
    store_c(cnf,cnf,lit).\n\
    decide_e(cnf,one,lit).\n\
    init_e(one,lit).\n\
    tt_e(one).\n";

/// The name of a definition that is built in.
#[derive(Clone, Copy, PartialEq, Eq, Debug)]
pub enum BuiltIn {
    Cnf,
}

impl BuiltIn {
    /// The text of the definition, as that of a file.
    pub fn text(self) -> &'static [u8]
        ensures text { result.now ≡ built_in_text self }
        ensures size { length result.now ≤ 16777216 }
    {
        match self {
            BuiltIn::Cnf => CNF,
        }
    }
}
