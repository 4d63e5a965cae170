//! The namespaces that a script opens.
ghost use Rattle.std.specs.Prelude.{◌≡◌, ◌++◌, IfOk, OnOk, filter_map};
ghost use Rattle.shell_serve.specs.Scripts.{open_lines, opens};

use session_script::{Line, Order, Script};
use std::alloc::{AllocError, Global};
use uuid::Uuid;

/// Returns the namespace that a call opens, if it opens one.
fn opens(line: &Line) -> Option<Uuid>
    ensures { result ≡ opens line.now }
{
    match line {
        Line::Order(Order::Open { uuid }) => Some(*uuid),
        _ => None,
    }
}

/// Appends the namespaces that calls open.
fn add_opened(lines: &[Line], uuids: &mut Vec<Uuid>) -> Result<(), AllocError>
    ensures { OnOk result (uuids.new.items ≡ uuids.old.items ++ filter_map opens lines.now) }
{
    for line in lines {
        match opens(line) {
            Some(uuid) => uuids.push(uuid)?,
            None => {}
        }
    }
    Ok(())
}

/// Returns the namespaces that the calls of a script open, one for each such call.
pub(crate) fn open_lines(alloc: Global, script: &Script) -> Result<Vec<Uuid>, AllocError>
    ensures { IfOk result (λ uuids. uuids.items ≡ open_lines script.now) }
{
    let mut uuids = Vec::new(alloc);
    for session in script.sessions.as_slice() {
        add_opened(session.calls.as_slice(), &mut uuids)?;
    }
    Ok(uuids)
}
