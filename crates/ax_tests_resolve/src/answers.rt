//! What a source is answered.

use ax_lex::lex;
use ax_names::resolve;
use ax_names_types::TypeFault;
use ax_parse::parse;
use ax_prog::Program;
use std::alloc::{AllocError, Global};

fn outcome(alloc: Global, found: Result<Program, TypeFault>) -> Result<String, AllocError> {
    match found {
        Ok(_) => format!(in alloc; "program"),
        Err(TypeFault { kind, span }) => format!(in alloc; "{kind:?} {} {}", span.from, span.to),
    }
}

/// `program` where the source has one, and else which rule it breaks first, and where.
pub fn answer(alloc: Global, source: &str) -> Result<String, AllocError> {
    let bytes = source.as_bytes();
    if bytes.len() > 100000 {
        return format!(in alloc; "long");
    }
    match lex(alloc, bytes) {
        Err(fault) => format!(in alloc; "{fault:?}"),
        Ok(tokens) => match parse(alloc, tokens.as_slice()) {
            Err(fault) => format!(in alloc; "{fault:?}"),
            Ok(tree) => outcome(alloc, resolve(alloc, &tree)?),
        },
    }
}

/// The first of these sources that has another answer than the one beside it, with its answer; nothing where there is none.
pub fn other_answer(alloc: Global, rows: &[(&str, &str)]) -> Result<String, AllocError> {
    for (source, wanted) in rows {
        let found = answer(alloc, source)?;
        if found.as_str() != *wanted {
            return format!(in alloc; "{source}: {found}");
        }
    }
    Ok(String::new(alloc))
}
