// A reader that holds the code and a place in it, kept thin: its reads are decode's, at that place.
ghost use Rattle.std.specs.Prelude.{◌≡◌};
ghost use Rattle.isa.specs.Reads.{byte_read, reg_read};
ghost use Rattle.isa.specs.Cursor.{cursor_at, CursorReads, byte_then_reg};

use super::codec::DecodeError;

#[derive(Clone, Copy)]
pub struct Cursor<'a> {
    pub code: &'a [u8],
    pub at: usize,
}

// What two reads in a row got, and the place of the next.
#[derive(Clone, Copy)]
pub struct TwoReads {
    pub byte: Result<u8, DecodeError>,
    pub reg: Result<u8, DecodeError>,
    pub at: usize,
}

impl<'a> Cursor<'a> {
    pub fn new(code: &'a [u8], at: usize) -> Cursor<'a>
        ensures { result ≡ cursor_at code.entry at }
    {
        Cursor { code, at }
    }

    pub fn byte<'s>(&'s mut self) -> Result<u8, DecodeError>
        ensures { CursorReads byte_read self.old self.new result }
    {
        let r = super::codec::read_byte(self.code, self.at);
        self.at = r.at;
        r.got
    }

    pub fn reg<'s>(&'s mut self) -> Result<u8, DecodeError>
        ensures { CursorReads reg_read self.old self.new result }
    {
        let r = super::codec::read_reg(self.code, self.at);
        self.at = r.at;
        r.got
    }
}

// A byte and then a register, read through one Cursor: for callers that have the code and a place.
pub fn byte_then_reg(code: &[u8], at: usize) -> TwoReads
    ensures { result ≡ byte_then_reg code.now at }
{
    let mut c = Cursor::new(code, at);
    let byte = c.byte();
    let reg = c.reg();
    TwoReads {
        byte,
        reg,
        at: c.at,
    }
}
