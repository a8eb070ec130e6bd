//! The command `play`: from the bytes of an image and of scripts to the report, the status and the bytes to save.
ghost use Rattle.std.specs.Prelude.{◌≡◌, ◌≤◌, IfOk, IfErr, count_by, length};
ghost use Rattle.std.specs.List.{list_any};
ghost use Rattle.command_faults.specs.Streams.{Hears, heard, streams};
ghost use Rattle.vol_scripts.specs.Scripts.{ReadsScripts};
ghost use Rattle.vol_play.specs.Players.{is_view};
ghost use Rattle.vol_play.specs.Play.{PlaysVolume, IsPlayed, IsUnplayed, any_cut, script_cuts, is_cut};

use crate::performance::play_on;
use crate::traced::finish_traced;
use command_faults::answer::{report, tell};
use command_faults::{Answer, Fault};
use command_terms::PlayForm;
use pdp_words::Sink;
use std::alloc::Global;
use std::sync::Wait;
use std::thread::Threads;
use vol_check::Gate;
use vol_layout::Edition;
use vol_scripts::{Played, Script, ScriptStep, ScriptsFault, read_scripts, refuse};
use vol_shared::{MOST_SESSIONS, MOST_VIEWS};
use vol_volume::Volume;

/// Plays scripts as [`perform`] does, and writes the line of a fault to `errors`.
pub fn play<R: Threads + Wait + Sync, G: Gate, O: Sink, E: Sink>(
    rt: &R,
    alloc: Global,
    edition: Edition,
    image: Vec<u8>,
    scripts: Vec<Vec<u8>>,
    journal: bool,
    form: PlayForm,
    gate: &G,
    output: &mut O,
    errors: &mut E,
) -> Answer
    requires first { 1 ≤ length scripts.items }
    requires last { length scripts.items ≤ MOST_SESSIONS }
    ensures played { PlaysVolume edition image.items journal form scripts.items (streams O.contents O.failed output.old output.new result.fault) result }
    ensures told { Hears (heard E.contents E.failed errors.old errors.new) result.fault }
{
    let answer = perform(
        rt, alloc, edition, image, scripts, journal, form, gate, output,
    );
    tell(&answer.fault, errors);
    answer
}

/// Plays 1 to [`MOST_SESSIONS`] scripts on the volume in an image. Each script has one thread and one session, or one view if its first line is the
/// word `view`. If a script's thread can't be started, the calling thread plays the script. The gate is called before and after each script, with the
/// script's number, counted from 0.
///
/// All scripts are read before the first call, and their texts are dropped. If a line can't be read, the volume isn't sound or memory runs out before
/// the first call, nothing is saved, and the fault reports the reason; the status is 2 for a line, 1 for an image that isn't sound, 4 for memory.
/// Otherwise the scripts are played, and [`finish_traced`] ends the play: it prints the result of each step on `output` in this form, with the journal
/// and the trace if they are wanted, and returns the bytes of the volume to save, whatever the status.
///
/// Takes memory for the scripts, for [`Volume::mount`], for each step and call, and for [`finish_traced`].
pub fn perform<R: Threads + Wait + Sync, G: Gate, O: Sink>(
    rt: &R,
    alloc: Global,
    edition: Edition,
    image: Vec<u8>,
    scripts: Vec<Vec<u8>>,
    journal: bool,
    form: PlayForm,
    gate: &G,
    output: &mut O,
) -> Answer
    requires first { 1 ≤ length scripts.items }
    requires last { length scripts.items ≤ MOST_SESSIONS }
    ensures { PlaysVolume edition image.items journal form scripts.items (streams O.contents O.failed output.old output.new result.fault) result }
{
    let scripts = match read_texts(alloc, scripts) {
        Ok(scripts) => scripts,
        Err(fault) => return refuse(alloc, fault),
    };
    let cuts = any_cut(&scripts);
    match play_image(rt, alloc, edition, image, scripts, gate) {
        Ok((volume, played)) => {
            finish_traced(alloc, volume, cuts, journal, form, played, output)
        }
        Err(fault) => report(Err(fault)),
    }
}

/// Reads scripts, and drops their texts.
fn read_texts(alloc: Global, texts: Vec<Vec<u8>>) -> Result<Vec<Script>, ScriptsFault>
    ensures { ReadsScripts texts.items result }
{
    read_scripts(alloc, &texts)
}

/// Mounts the volume in an image and plays scripts on it.
fn play_image<R: Threads + Wait + Sync, G: Gate>(
    rt: &R,
    alloc: Global,
    edition: Edition,
    image: Vec<u8>,
    scripts: Vec<Script>,
    gate: &G,
) -> Result<(Volume, Vec<Vec<Played>>), Fault>
    requires first { 1 ≤ length scripts.items }
    requires last { length scripts.items ≤ MOST_SESSIONS }
    requires views { count_by is_view scripts.items ≤ MOST_VIEWS }
    ensures played { IfOk result (λ made. IsPlayed edition image.items scripts.items made.0 made.1.items) }
    ensures fault { IfErr result (IsUnplayed edition image.items) }
{
    let volume = match Volume::mount(alloc, edition, image) {
        Ok(volume) => volume,
        Err((fault, _)) => return Err(Fault::from(fault)),
    };
    let (volume, played) = play_on(rt, alloc, volume, scripts, gate)?;
    volume.check();
    Ok((volume, played))
}

/// True if one of some scripts cuts the journal.
fn any_cut(scripts: &[Script]) -> bool
    ensures { result ≡ any_cut scripts.now }
{
    scripts.iter().any(|script| script_cuts(script))
}

/// True if a script cuts the journal.
fn script_cuts(script: &Script) -> bool
    ensures { result ≡ script_cuts script.now }
{
    match script {
        Script::Session(steps) => steps_cut(steps.as_slice()),
        Script::View(_) => false,
    }
}

/// True if one of some steps cuts the journal.
fn steps_cut(steps: &[ScriptStep]) -> bool
    ensures { result ≡ list_any is_cut steps.now }
{
    steps.iter().any(|step| is_cut(step))
}

/// True if a step cuts the journal.
fn is_cut(step: &ScriptStep) -> bool
    ensures { result ≡ is_cut step.now }
{
    match step {
        ScriptStep::Cut => true,
        ScriptStep::Change(_) | ScriptStep::Question(_) => false,
    }
}
