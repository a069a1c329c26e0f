// Authorising a key made from a base: a plan that only reads, then the change.
ghost use Rattle.std.specs.Prelude.{◌≡◌, not, List, ℕ};
ghost use Rattle.words.specs.Bytes.{num, words_in};
ghost use Rattle.words.specs.Choice.{both, either, bit};
ghost use Rattle.words.specs.Lists.{member};
ghost use Rattle.tables.specs.Table.{Table};
ghost use Rattle.keys.specs.Steps.{key_price, key_bytes};
ghost use Rattle.keys.specs.Lent.{Given, key_bufs, given};
ghost use Rattle.keys.specs.KeyPlans.{key_fits, KeyReady, PlansKey, Authorises};
ghost use Rattle.keys.specs.declared.look.TableRows.{TableRows};

use crate::counts::Counts;
use tables::rows::Rows;

// What it comes to: whether the base is declared keyed, and for writing; the price, the bytes of new entries, and whether all of it has room.
#[derive(Clone, Copy)]
pub struct KeyPlan {
    pub keyed: bool,
    pub write: bool,
    pub price: u64,
    pub bytes: u64,
    pub room: bool,
}

// Whether a base is declared keyed: for writing, or among the reads.
fn is_keyed(write: bool, keyed_reads: &[u8], base: u64) -> bool
    ensures { result ≡ either write (member base (words_in keyed_reads.now)) }
{
    write || crate::slots::listed(keyed_reads, base)
}

// What it costs to authorise a key that stands in either list, or in none.
#[tactic(auto, unfolding(crate::specs::Steps::key_price))]
fn key_price(written: bool, read: bool) -> u64
    ensures { result ≡ key_price written read }
{
    if written || read { 0 } else { 948 }
}

// One for a key that goes into a list where it does not stand, else none.
fn new_entry(goes: bool, stands: bool) -> u64
    ensures { result ≡ bit (both goes (not stands)) }
{
    u64::from(goes && !stands)
}

// The bytes that new entries count.
#[tactic(auto, unfolding(crate::specs::Steps::key_bytes))]
fn key_bytes(write: bool, written: bool, read: bool) -> u64
    ensures { result ≡ key_bytes write written read }
{
    32 * (new_entry(write, written) + new_entry(true, read))
}

// Whether the key has room among the readable keys, and the writable ones if it is to be written.
#[tactic(auto, unfolding(crate::specs::KeyPlans::key_fits))]
fn key_room(readable: Rows<32>, writable: Rows<32>, key: &[u8; 32], write: bool) -> bool
    ensures { result ≡
        key_fits readable.entry.count writable.entry.count (num key.now) write readable.entry.bytes.now writable.entry.bytes.now }
{
    crate::room::room(readable, key, true) && crate::room::room(writable, key, write)
}

// What authorising a key made from a base comes to. Changes nothing.
pub fn plan_authorise(
    c: Counts,
    keyed_reads: &[u8],
    keyed_writes: &[u8],
    readable: &[u8],
    writable: &[u8],
    base: u64,
    key: &[u8; 32],
) -> KeyPlan
    requires { Table 32 c.reads readable.now × Table 32 c.writes writable.now }
    ensures { (l : TableRows) (rd wr st ld ch fe pd : List ℕ) →
        PlansKey l (given rd wr keyed_reads.now keyed_writes.now st ld) c
        (key_bufs ch fe readable.now writable.now pd) base (num key.now) result }
{
    let readable: Rows<32> = Rows {
        bytes: readable,
        count: c.reads,
    };
    let writable: Rows<32> = Rows {
        bytes: writable,
        count: c.writes,
    };
    let write = crate::slots::listed(keyed_writes, base);
    let keyed = is_keyed(write, keyed_reads, base);
    let written = writable.has(key);
    let read = readable.has(key);
    let price = key_price(written, read);
    let bytes = key_bytes(write, written, read);
    let room = key_room(readable, writable, key, write);
    KeyPlan {
        keyed,
        write,
        price,
        bytes,
        room,
    }
}

// Authorises a key as planned. The plan must have found room.
pub fn authorise(
    c: Counts,
    plan: KeyPlan,
    readable: &mut [u8],
    writable: &mut [u8],
    key: &[u8; 32],
) -> Counts
    requires { KeyReady c plan (num key.now) readable.old writable.old }
    ensures { (l : TableRows) (g : Given) (base : ℕ) (ch fe pd : List ℕ) →
        Authorises l g base (num key.now) plan c result
        (key_bufs ch fe readable.old writable.old pd)
        (key_bufs ch fe readable.new writable.new pd) }
{
    let reads = crate::room::add_if(readable, c.reads, key, true);
    let writes = crate::room::add_if(writable, c.writes, key, plan.write);
    Counts { reads, writes, ..c }
}
