//! Pieces of a text, on their way to a sink.
ghost use Rattle.std.specs.Prelude.{◌≡◌, ◌≢◌, ◌≤◌, IfOk, OnOk, OnErr, Ok, Err};
ghost use Rattle.nvd_media.specs.Causes.{Rose};
ghost use Rattle.shell_reports.specs.Saved.{outcome_of};
ghost use Rattle.shell_export.specs.Printing.{AppendsAll, AppendsFront, PrintsMade, PrintsReport};

use nvd_media::TextSink;
use shell_reports::{Report, RunStop, Status};
use std::alloc::AllocError;

/// How many bytes are printed at a time: 256 KiB.
pub const PIECE: usize = 262144;

/// Why printing stopped before the end of a text.
#[derive(Clone, Copy, Debug)]
pub enum PrintStop {
    /// The bytes couldn't be read.
    Read,
    /// They couldn't be written.
    Write,
}

/// Prints bytes. `Write` means that the sink failed, and its count of failures rose; a front of the bytes was printed then.
pub fn print_bytes<O: TextSink>(bytes: &[u8], text: &mut O) -> Result<(), PrintStop>
    ensures all { OnOk result (AppendsAll (O.written text.old) (O.written text.new) (O.kept text.old) (O.kept text.new) bytes.now) }
    ensures part { OnErr result (AppendsFront (O.written text.old) (O.written text.new) bytes.now) }
    ensures later { O.faults text.old ≤ O.faults text.new }
    ensures read { result ≢ Err PrintStop.Read }
    ensures failed { result ≡ Err PrintStop.Write → Rose (O.faults text.old) (O.faults text.new) }
{
    match text.write(bytes) {
        Ok(()) => Ok(()),
        Err(_) => Err(PrintStop::Write),
    }
}

/// Prints a report, and returns its status, or `WriteFault` if the sink failed; a front of the text was printed then.
pub fn print_report<O: TextSink>(report: &Report, text: &mut O) -> Status
    ensures printed { PrintsReport (outcome_of report.now) (O.written text.old) (O.written text.new) (O.kept text.old) (O.kept text.new) result }
    ensures read { result ≢ Status.ReadFault }
    ensures failed { result ≡ Status.WriteFault → Rose (O.faults text.old) (O.faults text.new) }
{
    match text.write(&report.text) {
        Ok(()) => report.ending.status(),
        Err(_) => Status::WriteFault,
    }
}

/// Prints a report, or returns `OutOfMemory` if memory ran out as it was made; nothing is printed then.
pub fn print_made<O: TextSink>(
    made: Result<Report, AllocError>,
    text: &mut O,
) -> Result<Status, RunStop>
    ensures printed { IfOk result (PrintsMade made (O.written text.old) (O.written text.new) (O.kept text.old) (O.kept text.new)) }
    ensures nothing { OnErr result (O.written text.new ≡ O.written text.old) }
    ensures quiet { OnErr result (O.faults text.new ≡ O.faults text.old) }
    ensures memory { result ≢ Err RunStop.ReadFault }
    ensures read { result ≢ Ok Status.ReadFault }
    ensures failed { result ≡ Ok Status.WriteFault → Rose (O.faults text.old) (O.faults text.new) }
{
    match made {
        Ok(report) => Ok(print_report(&report, text)),
        Err(_) => Err(RunStop::OutOfMemory),
    }
}

/// Returns the status of a run that printed a text without a refusal, or stopped before its end.
pub fn status_after(printed: Result<(), PrintStop>) -> Status
    ensures all { OnOk printed (result ≡ Status.Ok) }
    ensures read { printed ≡ Err PrintStop.Read → result ≡ Status.ReadFault }
    ensures write { printed ≡ Err PrintStop.Write → result ≡ Status.WriteFault }
{
    match printed {
        Ok(()) => Status::Ok,
        Err(PrintStop::Read) => Status::ReadFault,
        Err(PrintStop::Write) => Status::WriteFault,
    }
}
