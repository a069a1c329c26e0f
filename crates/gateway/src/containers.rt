// Checking, searching and writing containers.
ghost use Rattle.std.specs.Prelude.{◌≡◌};
ghost use Rattle.container.specs.Reader.{read_of};
ghost use Rattle.container_verify.specs.Verify.{verified_of};
ghost use Rattle.container.specs.Offsets.{offset_of};
ghost use Rattle.container_writer.specs.Writer.{to_write};
ghost use Rattle.gateway.specs.Boundary.{answered, answered_of, told};
ghost use Rattle.gateway.specs.Words.{verified_words, offset_words, written_words};
ghost use Rattle.gateway.specs.Gateway.{writer_of};

use super::answer::pair_words;
use container::offsets::OffsetError;
use container::reader::Layout;
use container_verify::verify::Invalid;
use container_writer::writer::WriteError;
use words::refusal::Refusal;

#[tactic(auto, unfolding(crate::specs::Words::verified_words))]
fn verified_words(v: Result<Layout, Invalid>) -> [u64; 5]
    ensures { result ≡ verified_words v }
{
    match v {
        Ok(l) => [0, 0, l.code as u64, l.consts as u64, l.entries as u64],
        Err(e) => {
            let why = Refusal::from(e);
            [why.number, why.argument, 0, 0, 0]
        }
    }
}

#[tactic(auto, unfolding(crate::specs::Words::offset_words))]
fn offset_words(o: Result<u64, OffsetError>) -> [u64; 2]
    ensures { result ≡ offset_words o }
{
    match o {
        Ok(place) => [0, place],
        Err(e) => pair_words(Refusal::from(e)),
    }
}

#[tactic(auto, unfolding(crate::specs::Words::written_words))]
fn written_words(w: Result<usize, WriteError>) -> [u64; 2]
    ensures { result ≡ written_words w }
{
    match w {
        Ok(n) => [0, n as u64],
        Err(e) => pair_words(Refusal::from(e)),
    }
}

// Whether a container is valid, and how many code bytes, constants and entries it has.
#[unsafe(no_mangle)]
pub extern "C" fn qvm_verify(container: &[u8], answer: &mut [u64]) -> u32
    ensures { answered result answer.new ≡ answered_of (verified_words (verified_of (read_of container.now))) answer.old }
{
    let v = container_verify::verify::verify(container);
    let words = verified_words(v);
    super::answer::put(answer, &words)
}

// The offset of the first entry with a selector.
#[unsafe(no_mangle)]
pub extern "C" fn qvm_entry_offset(container: &[u8], selector: u32, answer: &mut [u64]) -> u32
    ensures { answered result answer.new ≡ answered_of (offset_words (offset_of selector (read_of container.now))) answer.old }
{
    let o = container::offsets::entry_offset(container, selector as u64);
    let words = offset_words(o);
    super::answer::put(answer, &words)
}

// The canonical bytes of code, constants and a list of entries.
#[unsafe(no_mangle)]
pub extern "C" fn qvm_canonical_bytes(
    code: &[u8],
    constants: &[u64],
    entries: &[u64],
    out: &mut [u8],
    answer: &mut [u64],
) -> u32
    ensures { told result answer.new out.new ≡
        writer_of (to_write code.now constants.now entries.now) out.old answer.old }
{
    if answer.len() < 2 {
        return 48;
    }
    let w = container_writer::writer::write(code, constants, entries, out);
    let words = written_words(w);
    super::answer::put(answer, &words)
}
