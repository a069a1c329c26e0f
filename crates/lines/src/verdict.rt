// The line that verdict prints for a container.
ghost use Rattle.std.specs.Prelude.{◌≤◌, length};
ghost use Rattle.words.specs.Laid.{Laid};
ghost use Rattle.lines.specs.VerdictLine.{ok_line, no_line, line_for, line_of};

use container::reader::Layout;
use container_verify::verify::{Invalid, verify};
use text::decimal::field;
use words::laid::put_bytes;
use words::refusal::Refusal;

// The longest container that verdict reads.
const MOST: usize = 49152;

// What a longer one is answered with.
const NO_ROOM: u64 = 48;

fn ok_line(out: &mut [u8], l: Layout) -> usize
    requires { 96 ≤ length out.old }
    ensures { Laid out.old 0 (ok_line l) out.new result }
{
    let a = field(out, 0, b"ok code=", l.code as u64);
    let b = field(out, a, b" consts=", l.consts as u64);
    let c = field(out, b, b" entries=", l.entries as u64);
    put_bytes(out, c, b"\n")
}

fn no_line(out: &mut [u8], why: Refusal) -> usize
    requires { 96 ≤ length out.old }
    ensures { Laid out.old 0 (no_line why) out.new result }
{
    let a = field(out, 0, b"no ", why.number);
    let b = field(out, a, b" ", why.argument);
    put_bytes(out, b, b"\n")
}

// The line for an answer of verify, and how long it is.
#[tactic(auto, unfolding(crate::specs::VerdictLine::line_for))]
pub fn line_for(out: &mut [u8], v: Result<Layout, Invalid>) -> usize
    requires { 96 ≤ length out.old }
    ensures { Laid out.old 0 (line_for v) out.new result }
{
    match v {
        Ok(l) => ok_line(out, l),
        Err(e) => no_line(out, Refusal::from(e)),
    }
}

// The line for a container's bytes at the front of the output, and how long it is.
#[tactic(auto, using(crate::specs::VerdictLaws::long_is))]
pub fn line(s: &[u8], out: &mut [u8]) -> usize
    requires { 96 ≤ length out.old }
    ensures { Laid out.old 0 (line_of s.now) out.new result }
{
    if s.len() > MOST {
        return no_line(out, Refusal::numbered(NO_ROOM));
    }
    line_for(out, verify(s))
}
