// The tables that a call is given, checked.
ghost use Rattle.opening.specs.Parts.{Checks};

use super::open::Call;
use keys::look::TableRows;
use state::fault::Fault;

// The rows of store and loader; store, then loader, then replies.
pub fn check(call: Call, store: &[u8], loader: &[u8], replies: &[u8]) -> Result<TableRows, Fault>
    ensures { Checks call store.now loader.now replies.now result }
{
    let Some(n) = tables::check::check(store, 40) else {
        return Err(Fault::BadTable);
    };
    let Some(m) = tables::check::check_if(call.has_loader, loader, 40) else {
        return Err(Fault::BadTable);
    };
    let Some(_) = replies::rows::check_replies(replies) else {
        return Err(Fault::BadReply);
    };
    Ok(TableRows {
        store: n,
        has_loader: call.has_loader,
        loader: m,
    })
}
