//! Determines the kind of a script from the script's header.
ghost use Rattle.std.specs.Prelude.{◌≡◌};
ghost use Rattle.qolb_script.specs.Headers as spec;

use crate::command_reader::read_header;
use crate::event_reader::read_step_header;
use crate::job::WorkKind;
use crate::job_reader::read_work_header;
use crate::reason::{Reason, ScriptKind};

/// Returns the kind of script that describes this kind of work.
pub fn script_kind(kind: WorkKind) -> ScriptKind
    ensures { result ≡ spec.script_kind kind }
{
    match kind {
        WorkKind::Board => ScriptKind::Board,
        WorkKind::Bank => ScriptKind::Bank,
    }
}

/// Returns the kind of script that has this line as its header. No line is a header of two kinds.
fn kind_of_header(line: &[u8]) -> Option<ScriptKind>
    ensures { result ≡ spec.kind_of_header line.now }
{
    if read_header(line).is_ok() {
        Some(ScriptKind::Schedule)
    } else if read_step_header(line).is_ok() {
        Some(ScriptKind::Steps)
    } else if read_work_header(WorkKind::Board, line).is_ok() {
        Some(ScriptKind::Board)
    } else if read_work_header(WorkKind::Bank, line).is_ok() {
        Some(ScriptKind::Bank)
    } else {
        None
    }
}

/// Returns the reason why a line is not the header of a script of kind `asked`.
///
/// The reason is that the line is the header of another kind of script, if it is. Otherwise the reason is `why`.
pub fn unless_other(asked: ScriptKind, line: &[u8], why: Reason) -> Reason
    ensures { result ≡ spec.unless_other asked line.now why }
{
    match kind_of_header(line) {
        Some(found) => Reason::Other { found, asked },
        None => why,
    }
}
