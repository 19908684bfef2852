//! Scripts of calls.
use crate::calls::call_of;
use crate::session::Session;
use crate::shown::answer_text;
use std::alloc::Global;

/// The answers of calls, one behind the other.
pub fn answers_to(alloc: Global, session: &mut Session, calls: &str) -> anyhow::Result<String> {
    let mut text = String::new(alloc);
    for line in calls.lines() {
        if !text.is_empty() {
            text.push_str(", ")?;
        }
        text.push_str(answered(alloc, session, line)?.as_str())?;
    }
    Ok(text)
}

/// The answer of one call.
fn answered(alloc: Global, session: &mut Session, line: &str) -> anyhow::Result<String> {
    match call_of(session.program(), line) {
        Some(call) => {
            let answer = session.answer(alloc, &call)?;
            answer_text(alloc, session.program(), &answer)
        }
        None => Ok(String::from_str(alloc, "no call")?),
    }
}
