//! The words that the search reads in clauses: the predicates of clerks and experts, the two sides, and `any`.
ghost use Rattle.std.specs.Prelude.{◌≡◌, IfOk, map};
ghost use Rattle.fpc_terms.specs.Name.{Grows};
ghost use Rattle.fpc_terms.specs.Adding.{AddsOnly};
ghost use Rattle.fpc_terms.specs.Text.{name_in};
ghost use Rattle.clause_language.specs.Program.{HaveWords, IsWord, words};

use fpc_base::outside::OutOfMemory;
use fpc_terms::name::NameId;
use fpc_terms::names::Names;

/// The ids of the words, each in the field of its own name. Clerks end in `c` and experts in `e`; those of LJF have before it an `l` or an `r`
/// for the side of the sequent. Clerks and experts are after Chihani, Miller and Renaud, A Semantic Framework for Proof Evidence (2017).
#[derive(Clone, Copy, Debug)]
pub struct WordIds {
    // LKF; `cut_e` serves both logics.
    pub and_c: NameId,
    pub or_c: NameId,
    pub ff_c: NameId,
    pub all_c: NameId,
    pub store_c: NameId,
    pub decide_e: NameId,
    pub release_e: NameId,
    pub init_e: NameId,
    pub tt_e: NameId,
    pub and_e: NameId,
    pub or_e: NameId,
    pub some_e: NameId,
    pub cut_e: NameId,
    // LJF.
    pub and_rc: NameId,
    pub imp_rc: NameId,
    pub all_rc: NameId,
    pub and_lc: NameId,
    pub or_lc: NameId,
    pub some_lc: NameId,
    pub tt_lc: NameId,
    pub store_lc: NameId,
    pub store_rc: NameId,
    pub decide_le: NameId,
    pub decide_re: NameId,
    pub release_le: NameId,
    pub release_re: NameId,
    pub init_le: NameId,
    pub init_re: NameId,
    pub and_le: NameId,
    pub imp_le: NameId,
    pub all_le: NameId,
    pub tt_re: NameId,
    pub and_re: NameId,
    pub or_re: NameId,
    pub some_re: NameId,
    // The sides of a choice, and what a variable becomes that is left at the end.
    pub left: NameId,
    pub right: NameId,
    pub any: NameId,
}

impl WordIds {
    /// The ids of the words, which get one where they have none yet.
    pub(crate) fn new(names: &mut Names) -> Result<WordIds, OutOfMemory>
        ensures words { IfOk result (HaveWords names.new) }
        ensures names { Grows names.old names.new }
        ensures only { AddsOnly IsWord names.old names.new }
    {
        let texts: [&[u8]; 38] = [
            b"and_c",
            b"or_c",
            b"ff_c",
            b"all_c",
            b"store_c",
            b"decide_e",
            b"release_e",
            b"init_e",
            b"tt_e",
            b"and_e",
            b"or_e",
            b"some_e",
            b"cut_e",
            b"and_rc",
            b"imp_rc",
            b"all_rc",
            b"and_lc",
            b"or_lc",
            b"some_lc",
            b"tt_lc",
            b"store_lc",
            b"store_rc",
            b"decide_le",
            b"decide_re",
            b"release_le",
            b"release_re",
            b"init_le",
            b"init_re",
            b"and_le",
            b"imp_le",
            b"all_le",
            b"tt_re",
            b"and_re",
            b"or_re",
            b"some_re",
            b"left",
            b"right",
            b"any",
        ];
        let ids = intern_words(names, &texts)?;
        let [
            and_c,
            or_c,
            ff_c,
            all_c,
            store_c,
            decide_e,
            release_e,
            init_e,
            tt_e,
            and_e,
            or_e,
            some_e,
            cut_e,
            and_rc,
            imp_rc,
            all_rc,
            and_lc,
            or_lc,
            some_lc,
            tt_lc,
            store_lc,
            store_rc,
            decide_le,
            decide_re,
            release_le,
            release_re,
            init_le,
            init_re,
            and_le,
            imp_le,
            all_le,
            tt_re,
            and_re,
            or_re,
            some_re,
            left,
            right,
            any,
        ] = ids;
        Ok(WordIds {
            and_c,
            or_c,
            ff_c,
            all_c,
            store_c,
            decide_e,
            release_e,
            init_e,
            tt_e,
            and_e,
            or_e,
            some_e,
            cut_e,
            and_rc,
            imp_rc,
            all_rc,
            and_lc,
            or_lc,
            some_lc,
            tt_lc,
            store_lc,
            store_rc,
            decide_le,
            decide_re,
            release_le,
            release_re,
            init_le,
            init_re,
            and_le,
            imp_le,
            all_le,
            tt_re,
            and_re,
            or_re,
            some_re,
            left,
            right,
            any,
        })
    }
}

/// The ids of the words, in their order.
fn intern_words(names: &mut Names, texts: &[&[u8]; 38]) -> Result<[NameId; 38], OutOfMemory>
    requires { map (λ t. t.now) texts.now ≡ words }
    ensures words { IfOk result (λ ids. map (name_in names.new) ids ≡ words) }
    ensures names { Grows names.old names.new }
    ensures only { AddsOnly IsWord names.old names.new }
{
    let first = names.intern(texts[0])?;
    let mut ids = [first; 38];
    for k in 0..38 {
        ids[k] = names.intern(texts[k])?;
    }
    Ok(ids)
}
