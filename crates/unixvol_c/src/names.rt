//! The meanings of the numbers that the functions return.
ghost use Rattle.std.specs.Prelude.{◌≡◌, ◌<◌, ◌≤◌, length, take, drop};
ghost use Rattle.unixvol_c.specs.Numbers.{number_text, own_text, refusal_text};

use crate::queries::put_text;
use crate::{DONE, NO_ROOM};
use vol_dir::Refusal;
use vol_judge::rules;

macro_rules! rule_text {
    ($rule:expr, $($name:ident = $number:literal,)*) => {
        match $rule {
            $($number => concat!("unsound, rule ", $number),)*
            _ => "unknown",
        }
    };
}

/// Puts the text of a number that a function returned, such as `NoEntry` or `unsound, rule 7`, into a buffer, and sets `count` to its length. If the
/// buffer is too short, sets only `count`. Takes no memory.
#[unsafe(no_mangle)]
pub extern "C" fn unixvol_name(number: u16, into: &mut [u8], count: &mut usize) -> i32
    ensures count { count.new ≡ length (number_text number) }
    ensures named { length (number_text number) ≤ length into.old
        → (result ≡ DONE) × (take count.new into.new ≡ number_text number) × (drop count.new into.new ≡ drop count.new into.old) }
    ensures room { length into.old < length (number_text number) → (result ≡ NO_ROOM) × (into.new ≡ into.old) }
{
    put_text(number_text(number).as_bytes(), into, count)
}

/// Returns the text of a number.
fn number_text(number: u16) -> &'static str
    ensures { result.now ≡ number_text number }
{
    if number < 200 {
        refusal_text(number)
    } else if number < 300 {
        rules!(rule_text, number - 200)
    } else {
        own_text(number)
    }
}

/// Returns the name of a refusal, also of a repair, or the text for 0.
fn refusal_text(number: u16) -> &'static str
    ensures { result.now ≡ refusal_text number }
{
    match number {
        0 => "done",
        112 => "NotRepaired",
        _ => match Refusal::at_number(number) {
            Some(refusal) => refusal.name(),
            None => "unknown",
        },
    }
}

/// Returns the text of a number that is neither a refusal's nor a broken rule's.
fn own_text(number: u16) -> &'static str
    ensures { result.now ≡ own_text number }
{
    match number {
        300 => "closed",
        301 => "no such edition",
        302 => "no room",
        303 => "bounds",
        304 => "too many records",
        305 => "no such report",
        306 => "no such look",
        307 => "no such device",
        _ => "unknown",
    }
}
