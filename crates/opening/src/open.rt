// The refusals of an opening in document 01's order, from the container on.
ghost use Rattle.std.specs.Prelude.{◌≡◌};
ghost use Rattle.opening.specs.Opened.{entry_call, genesis_call, Opens};

use container::entries::EntryLayout;
use container::reader::Layout;
use keys::look::TableRows;
use machine::host::Host;
use words::refusal::Refusal;

// What a call asks for: whether by an entry's call, which refuses the genesis selector; and whether there is a loader.
// No enum or Option: both kinds have all fields (`entry_call`, `genesis_call`), and the loader's bytes come apart, as the C interface lends them.
#[derive(Clone, Copy)]
pub struct Call {
    pub entry: bool,
    pub selector: u32,
    pub limit: u64,
    pub host: Host,
    pub has_loader: bool,
}

impl Call {
    // An entry's call, by a selector.
    pub fn for_entry(selector: u32, limit: u64, host: Host, has_loader: bool) -> Call
        ensures { result ≡ entry_call selector limit host has_loader }
    {
        Call {
            entry: true,
            selector,
            limit,
            host,
            has_loader,
        }
    }

    // The call of the genesis entry.
    pub fn for_genesis(limit: u64, host: Host, has_loader: bool) -> Call
        ensures { result ≡ genesis_call limit host has_loader }
    {
        Call {
            entry: false,
            selector: host.genesis,
            limit,
            host,
            has_loader,
        }
    }
}

// Where the container's parts and the entry's stand, the rows of store and loader, and what opening costs.
#[derive(Clone, Copy)]
pub struct Opened {
    pub layout: Layout,
    pub entry: EntryLayout,
    pub lent: TableRows,
    pub used: u64,
}

pub fn open(
    call: Call,
    container: &[u8],
    store: &[u8],
    loader: &[u8],
    replies: &[u8],
) -> Result<Opened, Refusal>
    ensures { Opens call container.now store.now loader.now replies.now result }
{
    let l = container::reader::read(container)?;
    let lent = super::lent::check(call, store, loader, replies)?;
    let code = &container[l.code_at..l.code_at + l.code];
    Ok(super::entry::enter(call, l, lent, container, code)?)
}
