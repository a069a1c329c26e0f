// The program's arguments: files by their order, options by their names.
ghost use Rattle.std.specs.Prelude.{◌≤◌, length, IfSome};

use std::env::{Env, FillError};
use std::io;
use std::io::Write;

// No path is longer.
pub const LONGEST: usize = 4096;

// The Rust's genesis selector, and the signed bytes of ML-DSA-65 and of SLH-DSA 128s: key and signature.
const GENESIS: u64 = 0xD4A3_FCE6;

const ML_SIGNED: u64 = 5261;

const SLH_SIGNED: u64 = 7888;

// Which argument names each file, and the host's numbers.
#[derive(Clone, Copy)]
pub struct Asked {
    pub container: usize,
    pub store: usize,
    pub call: usize,
    pub loader: Option<usize>,
    pub out: Option<usize>,
    pub genesis: u32,
    pub ml_signed: u64,
    pub slh_signed: u64,
}

// Why arguments are refused: the last three when all are read.
#[derive(Clone, Copy, Debug, PartialEq, Eq)]
enum ArgError {
    FileTooMany,
    NoSuchOption,
    NoNumber,
    FewFiles,
    NoValue,
    LargeGenesis,
}

impl ArgError {
    fn why(self) -> &'static [u8] {
        match self {
            ArgError::FileTooMany => b"one file too many",
            ArgError::NoSuchOption => b"no such option",
            ArgError::NoNumber => b"no decimal number below 2^64",
            ArgError::FewFiles =>
                b"CONTAINER STORE CALL [LOADER] [--out FILE] [--genesis N] [--ml N] [--slh N]",
            ArgError::NoValue => b"the last option lacks its value",
            ArgError::LargeGenesis => b"a selector is below 2^32",
        }
    }
}

// An option, which takes the next argument.
#[derive(Clone, Copy, Debug, PartialEq, Eq)]
enum Setting {
    Genesis,
    Ml,
    Slh,
    Out,
}

impl TryFrom<&[u8]> for Setting {
    type Error = ArgError;

    fn try_from(word: &[u8]) -> Result<Setting, ArgError> {
        match word {
            b"--genesis" => Ok(Setting::Genesis),
            b"--ml" => Ok(Setting::Ml),
            b"--slh" => Ok(Setting::Slh),
            b"--out" => Ok(Setting::Out),
            _ => Err(ArgError::NoSuchOption),
        }
    }
}

// What the arguments so far say, and the option that waits for the next.
#[derive(Clone, Copy)]
struct Given {
    container: Option<usize>,
    store: Option<usize>,
    call: Option<usize>,
    loader: Option<usize>,
    out: Option<usize>,
    genesis: u64,
    ml_signed: u64,
    slh_signed: u64,
    waiting: Option<Setting>,
}

impl Given {
    fn new() -> Given {
        Given {
            container: None,
            store: None,
            call: None,
            loader: None,
            out: None,
            genesis: GENESIS,
            ml_signed: ML_SIGNED,
            slh_signed: SLH_SIGNED,
            waiting: None,
        }
    }

    // A file, by those before it.
    fn file(self, i: usize) -> Result<Given, ArgError> {
        let mut given = self;
        match (self.container, self.store, self.call, self.loader) {
            (None, _, _, _) => given.container = Some(i),
            (_, None, _, _) => given.store = Some(i),
            (_, _, None, _) => given.call = Some(i),
            (_, _, _, None) => given.loader = Some(i),
            _ => return Err(ArgError::FileTooMany),
        }
        Ok(given)
    }

    // The value that an option waits for.
    fn value(self, setting: Setting, i: usize, word: &[u8]) -> Result<Given, ArgError> {
        let mut given = self;
        let number = text::number::parse(word).ok_or(ArgError::NoNumber);
        match setting {
            Setting::Genesis => given.genesis = number?,
            Setting::Ml => given.ml_signed = number?,
            Setting::Slh => given.slh_signed = number?,
            Setting::Out => given.out = Some(i),
        }
        given.waiting = None;
        Ok(given)
    }

    // What argument i adds.
    fn with(self, i: usize, word: &[u8]) -> Result<Given, ArgError> {
        if let Some(setting) = self.waiting {
            return self.value(setting, i, word);
        }
        if !word.starts_with(b"--") {
            return self.file(i);
        }
        let mut given = self;
        given.waiting = Some(Setting::try_from(word)?);
        Ok(given)
    }

    // The arguments, if they are whole.
    fn whole(self) -> Result<Asked, ArgError> {
        let (Some(container), Some(store), Some(call)) = (self.container, self.store, self.call)
        else {
            return Err(ArgError::FewFiles);
        };
        if self.waiting.is_some() {
            return Err(ArgError::NoValue);
        }
        Ok(Asked {
            container,
            store,
            call,
            loader: self.loader,
            out: self.out,
            genesis: u32::try_from(self.genesis).map_err(|_| ArgError::LargeGenesis)?,
            ml_signed: self.ml_signed,
            slh_signed: self.slh_signed,
        })
    }
}

// Argument i, in the bytes: empty where it has no room there, none behind the last.
pub fn argument<'a, V: Env>(env: &V, i: usize, t: &'a mut [u8]) -> Option<&'a [u8]>
    ensures { IfSome result (λ s. length s.now ≤ length t.old) }
{
    match env.arg(i, t) {
        Ok(n) => Some(&t[..n]),
        Err(FillError::TooLong) => Some(&[]),
        Err(FillError::NotPresent) => None,
    }
}

fn refused<E: Write>(err: &mut E, what: &[u8], e: ArgError) -> io::Result<Option<Asked>> {
    crate::said::complain(err, what, e.why())?;
    Ok(None)
}

// The arguments, or a complaint.
pub fn read<V: Env, E: Write>(env: &V, err: &mut E) -> io::Result<Option<Asked>> {
    let mut given = Given::new();
    for i in 1..usize::MAX {
        let mut buffer = [0u8; LONGEST];
        let Some(word) = argument(env, i, &mut buffer) else {
            break;
        };
        match given.with(i, word) {
            Ok(next) => given = next,
            Err(e) => return refused(err, word, e),
        }
    }
    match given.whole() {
        Ok(asked) => Ok(Some(asked)),
        Err(ArgError::LargeGenesis) => refused(err, b"--genesis", ArgError::LargeGenesis),
        Err(e) => refused(err, b"usage", e),
    }
}
