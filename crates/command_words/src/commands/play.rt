//! The command `play`.
ghost use Rattle.std.specs.Prelude.{IfErr, IfOk};
ghost use Rattle.command_words.specs.Invocations.{AsksFor, AsksForNothing, IsPlayFormGiven, IsTraceAsJson, TellsOf};
ghost use Rattle.command_words.specs.declared.verbs.Verb.TheVariants as verbs;

use crate::fault::WordFault;
use crate::given::{Given, excluded, flag_in, scripts_in};
use crate::invocation::{Invocation, Work};
use crate::parameters::{AT, EDITION, IMAGE, JSON, Need, Parameter, WordKind};
use crate::read_words::volume_in;
use command_terms::PlayForm;
use std::alloc::Global;

pub(crate) const NAME: &str = "play";

pub(crate) const ABOUT: &str = "Plays scripts of calls on a volume, each in its own thread.";

pub(crate) const MORE: &str = "\
Examples:
  unixvol play 7 disk.img first.txt second.txt
  unixvol play --journal 7 disk.img first.txt second.txt
  unixvol play --trace 7 disk.img first.txt        what each call changed, field by field
  unixvol play --json 7 disk.img first.txt | jq '.lines[] | select(.line == \"refused\")'

Each line of a script is NOW UID GID followed by one of these, with single spaces between all words:
  create PATH PERM        mkdir PATH PERM        link FROM TO          unlink PATH        rmdir PATH
  write PATH OFFSET HEX   truncate PATH LENGTH   chmod PATH PERM       chown PATH UID GID
  times PATH ATIME MTIME  stat PATH              read PATH OFFSET LEN  list PATH          cut
  mknod PATH PERM KIND MAJOR MINOR
PERM is octal. HEX has two hexadecimal digits for each byte, or is `-` for no bytes. KIND is c or b, as for
`unixvol mknod`. A script whose first line is `view` reads without waiting for the others; its other lines are
stat, read or list. There may be 16 such scripts.

The scripts share the volume. Lines of different scripts may come in any order, but each call is made as a whole.
All scripts are read before the first call is made. Then each line of a script has a line of output, by script and
line: `S.L ok N` (the i-number made, the number of bytes written, or 0), `S.L NUMBER NAME` for a refusal,
`S.L stat INO KIND PERM LINKS UID GID SIZE`, `S.L read HEX`, `S.L list COUNT` or `S.L cut N`. The last lines are
`records N`, the number of calls in the journal, `confirmed N`, the number of receipts that agree with it, and,
after cuts, `gone N`, the number of receipts that are older.

The volume is saved even if lines were refused: a new file is written beside IMAGE and then takes its place.

With --journal the calls in the journal follow, in the order in which they were made: all accepted ones, or those since
the last cut. Each is a line of a script. Played on the volume as it was before them, they make the same volume.
With --trace each of these calls follows, also as a line of a script, and below it, indented, what it changed: the lines
of `unixvol diff --fields` for the volume before this call and after it. The calls are made again on a copy for that.

With --json, one object is printed on one line. Its \"lines\" has an object for each line of output: \"script\",
\"line_number\", and \"line\", which is \"ok\" (with \"ino\" or \"count\", if there is a number), \"refused\" (with
\"refusal\", as \"17 Exists\"), \"stat\" (with the attributes), \"read\" (\"hex\"), \"list\" (\"count\") or \"cut\" (\"record\").
The other keys are \"records\", \"confirmed\", \"gone\" (null if no script cuts the journal), and \"journal\", the calls in the
journal with --journal, else null.

Status:
  0  all lines were played, and the volume was saved
  1  a line was refused; or
     `unixvol: unsound, rule N`: this is the first rule that the volume breaks; `unixvol check` says what breaks it
  2  `unixvol: script S line L`: this line can't be read, and nothing was played; or the command line is wrong
  3  `unixvol: cannot read FILE`, `unixvol: cannot write IMAGE`, or
     `unixvol: cannot write -`: standard output failed; the volume is saved all the same, if it can be
  4  `unixvol: 12 NoMemory`, or memory ran out for a line, or a view's line was not answered (`NotEntered`)";

const SCRIPT: Parameter = Parameter {
    name: "SCRIPT",
    kind: WordKind::Scripts,
    need: Need::Several,
    help: "The script files, 1 to 64",
};

const JOURNAL: Parameter = Parameter {
    name: "journal",
    kind: WordKind::Flag,
    need: Need::Flag(None),
    help: "Print the journal at the end, as the lines of a script",
};

const TRACE: Parameter = Parameter {
    name: "trace",
    kind: WordKind::Flag,
    need: Need::Flag(None),
    help: "Print at the end what each call in the journal changed, field by field; not with --json",
};

/// The words that `play` takes.
pub(crate) const WORDS: &[Parameter] = &[EDITION, IMAGE, AT, SCRIPT, JOURNAL, TRACE, JSON];

/// Reads the words of `play`.
pub(crate) fn read<'a, G: Given<'a>>(
    alloc: Global,
    given: &G,
    _clock: Option<u32>,
) -> Result<Invocation<'a>, WordFault<'a>>
    ensures read { IfOk result (AsksFor _clock verbs.Play (G.words given.now)) }
    ensures refused { IfErr result (TellsOf (AsksForNothing _clock verbs.Play (G.words given.now))) }
{
    let volume = volume_in(given)?;
    let scripts = scripts_in(alloc, given)?;
    let form = form_in(given)?;
    let work = Work::Play {
        scripts,
        journal: flag_in(given, "journal"),
        form,
    };
    Ok(Invocation::Work { volume, work })
}

/// Reads the form of the results. JSON and a trace exclude each other.
fn form_in<'a, G: Given<'a>>(given: &G) -> Result<PlayForm, WordFault<'a>>
    ensures read { IfOk result (IsPlayFormGiven (G.words given.now)) }
    ensures refused { IfErr result (TellsOf (IsTraceAsJson (G.words given.now))) }
{
    match (flag_in(given, "json"), flag_in(given, "trace")) {
        (false, trace) => Ok(PlayForm::Lines { trace }),
        (true, false) => Ok(PlayForm::Json),
        (true, true) => Err(excluded("trace", "json", TRACE.help)),
    }
}
