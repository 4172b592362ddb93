//! Terms by themselves.
use crate::told::refusal_text;
use fpc_base::Tokens;
use fpc_terms::{Names, VarTable, print_term, read_term};
use std::alloc::Global;
use std::test::Fail;

/// What a text that may have two variables is read as, printed, or why it is refused.
fn told(alloc: Global, source: &[u8]) -> Result<Vec<u8>, Fail> {
    let mut names = Names::new(alloc);
    let mut vars = VarTable::new(alloc);
    let mut tokens = Tokens::new(source);
    match read_term(alloc, &mut names, &mut tokens, &mut vars, Some(2)) {
        Ok(term) => {
            let mut out = Vec::new(alloc);
            print_term(alloc, &names, &term, &mut out)?;
            Ok(out)
        }
        Err(refusal) => Ok(refusal_text(alloc, refusal)?),
    }
}

const TERMS: &[(&str, &str)] = &[
    ("f(Y,g(X, Y),%\nb) .", "f(V0,g(V1,V0),b)"),
    ("f(a b)", "Unexpected at 4"),
    ("f(X,Y,Z)", "ManyVariables at 6"),
];

#[test]
fn terms_are_read_or_refused(rt: HostRuntime) -> Result<(), Fail> {
    for (source, due) in TERMS {
        let text = told(rt.alloc(), source.as_bytes())?;
        assert_eq!(rt; text.as_slice(), due.as_bytes(), "{source}");
    }
    Ok(())
}
