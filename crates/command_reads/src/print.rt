//! Prints a text, or reports why there is none.
ghost use Rattle.std.specs.Prelude.{◌≡◌, ◌⊎◌, ℕ, true, None, Some, IfErr, IfOk, OnErr, OnOk, string_bytes};
ghost use Rattle.std.specs.Io.KnownBytes.{Appends, Keeps};
ghost use Rattle.pdp_words.specs.Devices.{AppendsFront};
ghost use Rattle.vol_archive.specs.Write.{Writes};
ghost use Rattle.command_faults.specs.Faults.{fault_status, line_after};
ghost use Rattle.command_faults.specs.Streams.{streams};
ghost use Rattle.command_reads.specs.Export.{unwritten};
ghost use Rattle.command_reads.specs.Print.{IsPlainString, IsPlainText, IsSilent, IsTold, PrintsTelling, PrintsWith};

use crate::export::unwritten;
use command_faults::status::DONE;
use command_faults::{Ending, Fault};
use pdp_words::{Sink, write_all};
use vol_archive::WriteFault;

/// A text to print, and the ending of a command that has printed it.
#[derive(Drop)]
pub(crate) struct Shown {
    /// The text.
    pub(crate) text: Vec<u8>,
    /// The ending: its fault has the lines about the text, if there are any.
    pub(crate) ending: Ending,
}

/// Returns a text with a status and no lines about it.
pub(crate) fn silent(text: Vec<u8>, status: u8) -> Shown
    ensures { IsSilent text.items status result }
{
    Shown {
        text,
        ending: Ending {
            status,
            fault: None,
        },
    }
}

/// Returns a text with status 0 and no lines about it, or its fault.
pub(crate) fn plain(text: Result<Vec<u8>, Fault>) -> Result<Shown, Fault>
    ensures { IsPlainText text result }
{
    match text {
        Ok(text) => Ok(silent(text, DONE)),
        Err(fault) => Err(fault),
    }
}

/// Returns a string with status 0 and no lines about it, or its fault.
pub(crate) fn plain_string(text: Result<String, Fault>) -> Result<Shown, Fault>
    ensures { IsPlainString text result }
{
    match text {
        Ok(text) => Ok(silent(text.into_bytes(), DONE)),
        Err(fault) => Err(fault),
    }
}

/// Prints what a command shows, and returns its ending.
#[tactic(auto, using(crate::proofs::Printed::kept_same))]
pub(crate) fn print<O: Sink>(shown: Result<Shown, Fault>, output: &mut O) -> Ending
    ensures printed { IfOk shown (λ shown. PrintsTelling shown.ending.status (line_after shown.ending.fault) (streams O.contents O.failed output.old output.new result.fault)
        shown.text.items result.status) }
    ensures told { IfErr shown (λ fault. IsTold (streams O.contents O.failed output.old output.new result.fault) fault result.status) }
{
    match shown {
        Ok(Shown { text, ending }) => print_text(&text, ending, output),
        Err(fault) => Ending::from(fault),
    }
}

/// Prints a text, and returns the ending of a command that has printed it, or that standard output failed.
pub fn print_text<O: Sink>(text: &[u8], ending: Ending, output: &mut O) -> Ending
    ensures { PrintsTelling ending.status (line_after ending.fault) (streams O.contents O.failed output.old output.new result.fault) text.now result.status }
{
    match write_all(output, text) {
        Ok(()) => ending,
        Err(_) => Ending::from(Fault::Output),
    }
}

/// Prints a text, and returns a status for it.
pub fn print_with<O: Sink>(text: &[u8], status: u8, output: &mut O) -> Ending
    ensures { PrintsWith status (streams O.contents O.failed output.old output.new result.fault) text.now result.status }
{
    let ending = Ending {
        status,
        fault: None,
    };
    print_text(text, ending, output)
}

/// Writes a piece of a text.
pub(crate) fn put<O: Sink>(piece: &[u8], output: &mut O) -> Result<(), WriteFault>
    ensures { Writes (O.contents output.old) (O.contents output.new) (O.failed output.old) (O.failed output.new) piece.now result }
{
    match write_all(output, piece) {
        Ok(()) => Ok(()),
        Err(_) => Err(WriteFault::Output),
    }
}

/// Returns the result of a command whose text was written piece by piece, with a status for the whole text.
pub(crate) fn ending_after(written: Result<(), WriteFault>, status: u8) -> Ending
    ensures whole { OnOk written ((result.status ≡ status) × (result.fault ≡ None)) }
    ensures fault { IfErr written (λ fault. (result.status ≡ fault_status (unwritten fault)) × (result.fault ≡ Some (unwritten fault))) }
{
    let ending = Ending {
        status,
        fault: None,
    };
    ended_after(written, ending)
}

/// Returns the result of a command whose text was written piece by piece, with an ending for the whole text.
pub(crate) fn ended_after(written: Result<(), WriteFault>, ending: Ending) -> Ending
    ensures whole { OnOk written ((result.status ≡ ending.status) × (result.fault ≡ ending.fault)) }
    ensures fault { IfErr written (λ fault. (result.status ≡ fault_status (unwritten fault)) × (result.fault ≡ Some (unwritten fault))) }
{
    match written {
        Ok(()) => ending,
        Err(fault) => Ending::from(unwritten(fault)),
    }
}
