//! The calls of `exit` and `abort` in a trace.
ghost use Rattle.std.specs.Prelude.{◌≡◌, IfOk};
ghost use Rattle.session_runs.specs.Events as events;

use crate::Event;
use block_memory::Val;
use ir_meaning::{Reply, ReplyVal, Shown, Wanted};
use ir_syntax::Builtin;
use ir_types::{Bytes, OutOfMemory};
use sqlite_items::Items as List;
use std::alloc::Global;

/// A call of `exit` with this status.
pub(crate) fn exit_call(alloc: Global, status: u32) -> Result<Event, OutOfMemory>
    ensures { IfOk result (λ event. event ≡ events.exit_call status) }
{
    let mut args = List::new(alloc);
    args.push(Shown {
        value: Val::Num(status as u64),
        block: None,
        writable: false,
    })?;
    ending_call(alloc, Builtin::Exit, args)
}

/// A call of `abort`.
pub(crate) fn abort_call(alloc: Global) -> Result<Event, OutOfMemory>
    ensures { IfOk result (λ event. event ≡ events.abort_call) }
{
    ending_call(alloc, Builtin::Abort, List::new(alloc))
}

fn ending_call(alloc: Global, of: Builtin, args: List<Shown>) -> Result<Event, OutOfMemory>
    ensures { IfOk result (λ event. event ≡ events.ending_call of args) }
{
    let call = Wanted {
        name: Bytes::from_slice(alloc, of.name())?,
        fn_ty: of.fn_type(alloc)?,
        args,
    };
    let reply = Reply::Give {
        value: ReplyVal::Void,
        writes: List::new(alloc),
    };
    Ok(Event::Asked(call, reply))
}
