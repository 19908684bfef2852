//! Programs of scripts.
use crate::session::Session;
use program_rows::{Linked, link_row};
use std::alloc::Global;

/// The manifest of every script, and its first module.
const FIRST: &str =
    "{\"version\":1,\"modules\":[\"rows.ll\"],\"entry\":{\"name\":\"main\",\"args\":[]}}\n; --\ndefine void @main() {\n  ret void\n}\n; --\n";

/// What becomes of the modules of a script.
pub enum Start {
    Session(Session),
    Linked,
    /// There is no program: why.
    Refused(String),
}

/// Links the texts of modules behind a first one that defines `main` alone, and where a session is to be run starts it. The
/// error is want of memory.
pub fn started(alloc: Global, runs: bool, modules: &str) -> anyhow::Result<Start> {
    let row = format!(in alloc; "{FIRST}{modules}")?;
    match link_row(alloc, row.as_str())? {
        Linked::Program(program) => {
            if runs {
                Ok(Start::Session(Session::start(alloc, program)?))
            } else {
                Ok(Start::Linked)
            }
        }
        Linked::Refused(fault) => Ok(Start::Refused(format!(in alloc; "refused {fault:?}")?)),
        Linked::NotSound => Ok(Start::Refused(String::from_str(alloc, "not sound")?)),
        Linked::NoManifest(why) => Ok(Start::Refused(why)),
    }
}
