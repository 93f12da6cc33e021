// How a run ends, and the note of it.
ghost use Rattle.std.specs.Prelude.{◌≡◌};
ghost use Rattle.clr_top.specs.Endings.{Notes, number_of, status_of};

use clr_io::{Sink, write_whole};
use clr_report::{Cause, note_text};

/// How a run ended.
#[derive(Clone, Copy, Debug, PartialEq, Eq)]
pub enum Status {
    /// The whole report was written.
    Ok,
    /// The season's files have a first refusal of content.
    Refused,
    /// The words ask nothing that the program does.
    Words,
    /// No path obeys.
    NoPath,
    /// The shelf failed while a file was opened or read.
    ReadFault,
    /// The report's sink failed, or the desk while a file was made or written.
    WriteFault,
    /// A file is longer than its limit, the season's tables have too many cells, or a policy is too large to be judged.
    Limit,
    /// A certificate is refused.
    CertificateNo,
    /// Memory was wanting.
    Memory,
    /// A policy file has no reading, or a branch of the policy breaks a rule.
    PolicyNo,
    /// A file that is needed isn't held.
    Absent,
}

impl Status {
    /// The exit status of the program.
    pub fn number(&self) -> u8
        ensures { result ≡ number_of self.now }
    {
        match self {
            Status::Ok => 0,
            Status::Refused => 1,
            Status::Words => 2,
            Status::NoPath => 3,
            Status::ReadFault => 4,
            Status::WriteFault => 5,
            Status::Limit => 6,
            Status::CertificateNo => 7,
            Status::Memory => 8,
            Status::PolicyNo => 9,
            Status::Absent => 10,
        }
    }
}

/// The status by which a run ends that a cause keeps from its whole report.
pub(crate) fn ending_status(cause: Cause) -> Status
    ensures { result ≡ status_of cause }
{
    match cause {
        Cause::Words => Status::Words,
        Cause::Refused { .. } => Status::Refused,
        Cause::NoPath => Status::NoPath,
        Cause::ReadFault { .. } => Status::ReadFault,
        Cause::Absent { .. } => Status::Absent,
        Cause::WriteFault { .. } => Status::WriteFault,
        Cause::TooLong { .. } => Status::Limit,
        Cause::Cells { .. } => Status::Limit,
        Cause::Size { .. } => Status::Limit,
        Cause::Base => Status::Limit,
        Cause::CertificateNo { .. } => Status::CertificateNo,
        Cause::PolicyJson => Status::PolicyNo,
        Cause::PolicyShape { .. } => Status::PolicyNo,
        Cause::PolicyUnknown { .. } => Status::PolicyNo,
        Cause::PolicyRule { .. } => Status::PolicyNo,
        Cause::Memory => Status::Memory,
    }
}

/// Writes the note of why a run ends, as far as the sink takes it.
pub(crate) fn write_note<N: Sink>(note: &mut N, cause: Cause)
    ensures notes { Notes (N.written note.old) (N.written note.new) (N.faults note.old) (N.faults note.new) cause }
    ensures around { N.around note.new ≡ N.around note.old }
{
    let mut text = [0; 256];
    let count = note_text(&cause, &mut text);
    let _ = write_whole(note, &text[..count]);
}
