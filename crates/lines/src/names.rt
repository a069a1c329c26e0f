// The names of document 01's numbers.
ghost use Rattle.std.specs.Prelude.{◌≡◌};
ghost use Rattle.lines.specs.Names.{added_name, later_name, name_of};

#[tactic(auto, unfolding(crate::specs::Names::added_name, crate::specs::Names::name_in, text::specs::Ascii::ascii))]
fn added_name(number: u64) -> &'static [u8]
    ensures { result.now ≡ added_name number }
{
    match number {
        41 => b"BadTag",
        42 => b"Short",
        43 => b"Trailing",
        44 => b"BadBuffer",
        45 => b"BadTable",
        46 => b"BadReply",
        47 => b"NoReply",
        48 => b"NoRoom",
        49 => b"BadList",
        50 => b"NotRegister",
        _ => b"Unnamed",
    }
}

#[tactic(auto, unfolding(crate::specs::Names::later_name, crate::specs::Names::name_in, text::specs::Ascii::ascii))]
fn later_name(number: u64) -> &'static [u8]
    ensures { result.now ≡ later_name number }
{
    match number {
        21 => b"CodeTooLarge",
        22 => b"ConstsTooLarge",
        23 => b"EntriesTooLarge",
        24 => b"UndecodableCode",
        25 => b"ConstIndexOutOfRange",
        26 => b"MisalignedTarget",
        27 => b"EntryOffsetMisaligned",
        28 => b"DuplicateSelector",
        29 => b"AccessListTooLarge",
        _ => added_name(number),
    }
}

// A number's name.
#[tactic(auto, unfolding(crate::specs::Names::name_of, crate::specs::Names::name_in, text::specs::Ascii::ascii))]
pub(crate) fn name_of(number: u64) -> &'static [u8]
    ensures { result.now ≡ name_of number }
{
    match number {
        1 => b"OutOfMeter",
        2 => b"Overflow",
        3 => b"DivByZero",
        4 => b"StackOverflow",
        5 => b"StackUnderflow",
        6 => b"BadMemory",
        7 => b"BadJump",
        8 => b"BadConst",
        9 => b"UnknownSelector",
        10 => b"BadScheme",
        11 => b"EffectsTooLarge",
        12 => b"UndeclaredSlot",
        13 => b"CryptoFault",
        14 => b"Malformed",
        15 => b"UnknownOpcode",
        16 => b"BadRegister",
        17 => b"Truncated",
        _ => later_name(number),
    }
}
