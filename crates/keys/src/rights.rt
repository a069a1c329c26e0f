// The right to a key: a declared slot's, or one that was authorised.
ghost use Rattle.std.specs.Prelude.{◌≡◌};
ghost use Rattle.words.specs.Bytes.{num, words_in};
ghost use Rattle.tables.specs.Content.{content};
ghost use Rattle.keys.specs.Values.{may_store, may_load};

use tables::rows::Rows;

// Whether a key may be written: its slot is declared for writing, or it is among the writable keys.
pub fn may_store(writes: &[u8], writable: Rows<32>, key: &[u8; 32]) -> bool
    ensures { result ≡ may_store (words_in writes.now) (content writable.entry) (num key.now) }
{
    crate::slots::declared(writes, key) || writable.has(key)
}

// Whether a key may be read: its slot is declared for reading or writing, or it is among the readable keys.
pub fn may_load(reads: &[u8], writes: &[u8], readable: Rows<32>, key: &[u8; 32]) -> bool
    ensures { result ≡ may_load (words_in reads.now) (words_in writes.now) (content readable.entry) (num key.now) }
{
    crate::slots::declared(reads, key) || may_store(writes, readable, key)
}
