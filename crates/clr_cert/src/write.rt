// A certificate, written to a desk.
ghost use Rattle.clr_cert.specs.Entries.{AreInRange, MayBeAsked};
ghost use Rattle.clr_cert.specs.Lines.{cert_text, line_at};
ghost use Rattle.clr_cert.specs.Places.{IsPlaceOf};
ghost use Rattle.clr_cert.specs.Writing.{AddsFront, IsSent, WritesFront, with_file};
ghost use Rattle.clr_io.specs.Causes.{HasCause, Rose};
ghost use Rattle.clr_rules.specs.FirstPath.{SomePathObeys};
ghost use Rattle.clr_rules.specs.LiveSummaries.{live_pairs};
ghost use Rattle.clr_season.specs.Season.{IsSeason};
ghost use Rattle.std.specs.Io.KnownBytes.{Appends};
ghost use Rattle.std.specs.Prelude.{◌≡◌, ◌≤◌, [], ◌∷◌, ◌++◌, length, IsErrOf, OnErr, OnOk};

use crate::counts::line_count;
use crate::entries::Entries;
use crate::line_buffer::LineBuffer;
use crate::place::Place;
use clr_io::{Desk, Failed, Sink, write_whole};
use clr_rules::Live;
use clr_season::Season;
use std::alloc::Global;
use thiserror::Error;

/// Why a certificate was not written.
#[derive(Clone, Copy, Debug, PartialEq, Eq, Error)]
pub enum CertError {
    /// The desk failed.
    #[error("the certificate could not be written")]
    Failed,
    /// Memory was wanting.
    #[error("out of memory")]
    Memory,
}

/// Makes a file of this name on a desk, and writes the certificate of a season's entries to it. Its text is that of
/// docs/formats.md, "The certificate".
///
/// # Errors
/// `Failed` where the desk failed: no file was made, or a front of the text stands in it. `Memory` where memory is wanting,
/// which comes before the desk is called.
pub fn write_cert<E: Entries, D: Desk>(
    alloc: Global,
    season: &Season,
    live: &Live,
    entries: &E,
    name: &str,
    desk: &mut D,
) -> Result<(), CertError>
    requires live { live.now ≡ live_pairs season.now.rules }
    requires any { SomePathObeys season.now.rules }
    requires asked { MayBeAsked season.now (E.may_ask entries.now) }
    requires ranges { AreInRange season.now (E.entries entries.now) }
    ensures ok { OnOk result (D.made desk.new ≡ with_file (D.made desk.old) name.now (cert_text season.now (E.entries entries.now))) }
    ensures failed { IsErrOf result CertError.Failed → Rose (D.faults desk.old) (D.faults desk.new) }
    ensures front { IsErrOf result CertError.Failed → AddsFront (D.made desk.old) (D.made desk.new) name.now (cert_text season.now (E.entries entries.now)) }
    ensures memory { IsErrOf result CertError.Memory → desk.new ≡ desk.old }
    ensures later { D.faults desk.old ≤ D.faults desk.new }
{
    let mut lines = match LineBuffer::new(alloc) {
        Ok(lines) => lines,
        Err(_) => return Err(CertError::Memory),
    };
    match write_file(season, live, entries, name, &mut lines, desk) {
        Ok(()) => Ok(()),
        Err(_) => Err(CertError::Failed),
    }
}

// Makes the file, and writes the text to it by an empty buffer.
fn write_file<E: Entries, D: Desk>(
    season: &Season,
    live: &Live,
    entries: &E,
    name: &str,
    lines: &mut LineBuffer,
    desk: &mut D,
) -> Result<(), Failed>
    requires live { live.now ≡ live_pairs season.now.rules }
    requires any { SomePathObeys season.now.rules }
    requires asked { MayBeAsked season.now (E.may_ask entries.now) }
    requires ranges { AreInRange season.now (E.entries entries.now) }
    requires empty { lines.old ≡ [] }
    ensures ok { OnOk result (D.made desk.new ≡ with_file (D.made desk.old) name.now (cert_text season.now (E.entries entries.now))) }
    ensures front { OnErr result (AddsFront (D.made desk.old) (D.made desk.new) name.now (cert_text season.now (E.entries entries.now))) }
    ensures cause { HasCause (D.faults desk.old) (D.faults desk.new) result }
{
    desk.create(name)?;
    write_lines(season, live, entries, lines, desk)
}

// Writes all lines by an empty buffer.
fn write_lines<E: Entries, K: Sink>(
    season: &Season,
    live: &Live,
    entries: &E,
    lines: &mut LineBuffer,
    sink: &mut K,
) -> Result<(), Failed>
    requires live { live.now ≡ live_pairs season.now.rules }
    requires any { SomePathObeys season.now.rules }
    requires asked { MayBeAsked season.now (E.may_ask entries.now) }
    requires ranges { AreInRange season.now (E.entries entries.now) }
    requires empty { lines.old ≡ [] }
    ensures ok { OnOk result (Appends (K.written sink.old) (K.written sink.new) (cert_text season.now (E.entries entries.now))) }
    ensures err { OnErr result (WritesFront (K.written sink.old) (K.written sink.new) (cert_text season.now (E.entries entries.now))) }
    ensures around { K.around sink.new ≡ K.around sink.old }
    ensures cause { HasCause (K.faults sink.old) (K.faults sink.new) result }
{
    let mut place = Place::Head;
    for _row in 0..line_count(season, live) {
        lines.put_line(season, live, entries, place);
        send_if_full(lines, sink)?;
        place = place.next(season, live);
    }
    send(lines, sink)
}

// Writes what waits once it is enough.
fn send_if_full<K: Sink>(lines: &mut LineBuffer, sink: &mut K) -> Result<(), Failed>
    ensures ok { OnOk result (IsSent (K.written sink.old) (K.written sink.new) lines.old [] lines.new) }
    ensures room { OnOk result (length lines.new ≤ 65536) }
    ensures err { OnErr result (WritesFront (K.written sink.old) (K.written sink.new) lines.old) }
    ensures around { K.around sink.new ≡ K.around sink.old }
    ensures cause { HasCause (K.faults sink.old) (K.faults sink.new) result }
{
    if lines.is_full() {
        send(lines, sink)
    } else {
        Ok(())
    }
}

// Writes what waits.
fn send<K: Sink>(lines: &mut LineBuffer, sink: &mut K) -> Result<(), Failed>
    ensures ok { OnOk result (Appends (K.written sink.old) (K.written sink.new) lines.old) }
    ensures empty { OnOk result (lines.new ≡ []) }
    ensures err { OnErr result (WritesFront (K.written sink.old) (K.written sink.new) lines.old) }
    ensures around { K.around sink.new ≡ K.around sink.old }
    ensures cause { HasCause (K.faults sink.old) (K.faults sink.new) result }
{
    write_whole(sink, lines.bytes())?;
    lines.clear();
    Ok(())
}
