//! The texts of the program's help, those of words that aren't valid, and those that several commands have.

pub const ABOUT: &str = "Works on disk images of Sixth and Seventh Edition Unix.";

pub const STATUSES: &str = "\
A fault is reported in one line on standard error. If the command line is wrong, the message says what is wrong
with it, in most cases followed by the usage. The exit status is 0 for success, 1 for a refusal, 2 for a wrong
command line, 3 if a file can't be read or written, and 4 if memory runs out. Some commands also have 5, if something
is lost or left out, and 6, if there is no volume: their help says when.

With --explain, before or after the command, a second line says what the fault means, what it is about, and, if a
file failed, the system's own reason. If standard error is a terminal, this line is printed without --explain too;
set the variable UNIXVOL_EXPLAIN to 0 to turn that off, or to 1 to have the line everywhere, as in logs.

If reading or writing a file takes more than a second, and standard error is a terminal, a line there shows how much
of it is done, and is wiped at the end; not with --json. Set the variable UNIXVOL_PROGRESS to 0 to turn it off.

Where a command takes the EDITION of a volume in a file, `any` may be written for it. Then the volume is judged first,
as one of each edition, and the command runs with the edition of which it is sound. If it is sound as neither or as
both, the status is 1, and nothing is done. A pipe can be read only once, so it needs 6 or 7.";

pub const EXPLAIN: &str = "Explain a fault in a second line";

pub const ONE_PATH: &str = "takes one PATH, then the time";

pub const TWO_PATHS: &str = "takes two paths, FROM and TO, then the time";

pub const EDITIONS: &str = "6 for the Sixth, 7 for the Seventh, any for the one that fits";

pub const NEW_EDITIONS: &str = "6 for the Sixth, 7 for the Seventh";

pub const NO_NODE: &str =
    "not a decimal number from 0 to 65535, nor a path that begins with a slash";

pub const NO_PLACE: &str =
    "not a decimal number from 0 to 4294967295, nor a path that begins with a slash";

pub const BYTE: &str = "not a decimal number from 0 to 255";

pub const DEVICE_KINDS: &str = "c for a character device, b for a block device";

pub const WORD: &str = "not a decimal number from 0 to 65535";

pub const LONG: &str = "not a decimal number from 0 to 4294967295";

pub const BLOCKS_OR_DISK: &str =
    "not a decimal number from 0 to 4294967295, nor rk05, rk06, rk07, rl01, rl02, rm03, rp03, rp04, rp06, rx01 or rx02";

pub const PERMISSIONS: &str =
    "not an octal number from 0 to 7777, nor changes like u+x or a=rx,u+w";

pub const OWNER_WORD: &str = "not two numbers from 0 to 65535 with a colon between them";

pub const THREADS: &str = "not a decimal number from 1 to 64";

pub const SCRIPTS: &str = "this is the number of scripts, and there may be 1 to 64";

pub const MOMENT: &str =
    "not a decimal number from 0 to 4294967295, nor a date like 2026-11-23T12:00:00Z";

pub const NO_CLOCK: &str = "the clock isn't set to a time from 1970 to 2106";

pub const EMPTY_PATH: &str = "it is empty; the root is /";

pub const EMPTY_RESCUE: &str = "it is empty, and names no file";

pub const NO_FILE: &str = "a file is missing";

pub const SAME_NAME: &str = "two files have this last name, and one would replace the other";

pub const CALL_NOW: &str =
    "The time of the change: seconds since 1970, or a date like 2026-11-23 or 2026-11-23T12:00:00Z; by default, now";

pub const NAMED: &str = "The file's path in the volume";

pub const NEW_IMAGE: &str = "The file to make or replace";
