//! The end of a play, with the trace of its calls.
ghost use Rattle.std.specs.Prelude.{◌≡◌, true, IfOk, OnErr};
ghost use Rattle.command_faults.specs.Streams.{streams};
ghost use Rattle.vol_play.specs.Play.{EndsLines, EndsPlay, IsTraceIf};

use command_faults::{Answer, Fault};
use command_terms::PlayForm;
use pdp_words::Sink;
use std::alloc::{AllocError, Global};
use vol_scripts::{Played, ReportForm, finish};
use vol_trace::trace_of;
use vol_volume::Volume;

/// Ends a play as [`finish`] does, in this form. Lines may have the trace of the volume after them; if memory for it runs out, nothing is printed, and the
/// fault reports it; the volume's bytes are to be saved all the same.
///
/// Takes the memory of [`finish`], and, for a trace, the memory and the time of [`trace_of`].
pub(crate) fn finish_traced<O: Sink>(
    alloc: Global,
    volume: Volume,
    cuts: bool,
    journal: bool,
    form: PlayForm,
    scripts: Vec<Vec<Played>>,
    output: &mut O,
) -> Answer
    ensures { EndsPlay volume cuts journal form scripts.items (streams O.contents O.failed output.old output.new result.fault) result }
{
    match form {
        PlayForm::Lines { trace } => {
            finish_lines(alloc, volume, cuts, journal, trace, scripts, output)
        }
        PlayForm::Json => finish(
            alloc,
            volume,
            cuts,
            journal,
            ReportForm::Json,
            scripts,
            output,
        ),
    }
}

/// Ends a play whose results are printed as lines, with the trace of the volume after its report, if it is wanted.
fn finish_lines<O: Sink>(
    alloc: Global,
    volume: Volume,
    cuts: bool,
    journal: bool,
    trace: bool,
    scripts: Vec<Vec<Played>>,
    output: &mut O,
) -> Answer
    ensures { EndsLines volume cuts journal trace scripts.items (streams O.contents O.failed output.old output.new result.fault) result }
{
    match trace_if(alloc, &volume, trace) {
        Ok(traced) => finish(
            alloc,
            volume,
            cuts,
            journal,
            ReportForm::Lines(traced),
            scripts,
            output,
        ),
        Err(error) => {
            let fault = Fault::from(error);
            Answer {
                status: fault.status(),
                image: Some(volume.unmount()),
                trace: None,
                fault: Some(fault),
            }
        }
    }
}

/// Returns the trace of a volume, if it is wanted, and no bytes otherwise.
fn trace_if(alloc: Global, volume: &Volume, wanted: bool) -> Result<Vec<u8>, AllocError>
    ensures text { IfOk result (λ text. IsTraceIf wanted volume.now text.items) }
    ensures memory { OnErr result (wanted ≡ true) }
{
    if wanted {
        trace_of(alloc, volume)
    } else {
        Ok(Vec::new(alloc))
    }
}
