// Lines of a call's answer and of its changes, each at the front of the output.
ghost use Rattle.std.specs.Prelude.{◌≡◌, ◌≤◌, length};
ghost use Rattle.words.specs.Laid.{Laid};
ghost use Rattle.lines.specs.AnswerLines.{end_word, fault_line, end_line, used_line, change_line};

use super::names::name_of;
use text::decimal::field;
use text::hex::hex;
use words::laid::put_bytes;

// The bytes of a row's key, which its value follows.
const KEY: usize = 32;

// An opening that is refused fetches nothing, and every run fetches.
#[tactic(auto, unfolding(crate::specs::AnswerLines::end_word, text::specs::Ascii::ascii))]
fn end_word(fetches: u64) -> &'static [u8]
    ensures { result.now ≡ end_word fetches }
{
    if fetches == 0 {
        b"refused "
    } else {
        b"faulted "
    }
}

fn fault_line(out: &mut [u8], number: u64, argument: u64, fetches: u64) -> usize
    requires { 96 ≤ length out.old }
    ensures { Laid out.old 0 (fault_line number argument fetches) out.new result }
{
    let a = field(out, 0, end_word(fetches), number);
    let b = put_bytes(out, a, b" ");
    let c = put_bytes(out, b, name_of(number));
    field(out, c, b" ", argument)
}

// How a call ended.
// Room is asked of a slice here and below: an array in its place would ask more of callers.
#[tactic(auto, unfolding(crate::specs::AnswerLines::end_line, text::specs::Ascii::ascii))]
pub fn end_line(out: &mut [u8], number: u64, argument: u64, fetches: u64) -> usize
    requires { 96 ≤ length out.old }
    ensures { Laid out.old 0 (end_line number argument fetches) out.new result }
{
    if number == 0 {
        return put_bytes(out, 0, b"halted");
    }
    fault_line(out, number, argument, fetches)
}

// What a halted call used of its limit.
pub fn used_line(out: &mut [u8], used: u64, limit: u64) -> usize
    requires { 96 ≤ length out.old }
    ensures { Laid out.old 0 (used_line used limit) out.new result }
{
    let a = field(out, 0, b"used ", used);
    field(out, a, b" of ", limit)
}

// A key stored, and its last value.
pub fn change_line(out: &mut [u8], row: &[u8]) -> usize
    requires { (96 ≤ length out.old) × (length row.now ≡ 40) }
    ensures { Laid out.old 0 (change_line row.now) out.new result }
{
    let a = hex(out, 0, &row[..KEY]);
    field(out, a, b" = ", words::bytes::read(row, KEY, 8))
}
