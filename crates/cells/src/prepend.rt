// An example of a layer above a quota: its own fault takes in the store's, through `From` and `?`.
ghost use Rattle.std.specs.Prelude.{◌≡◌};
ghost use Rattle.cells.specs.Prepend.{Prepends};
ghost use Rattle.cells.specs.Quota.{QuotaOk};
ghost use Rattle.cells.specs.declared.prepend.PrependFault.TheVariants.{Store};

use super::fault::StoreFault;
use super::quota::Quota;
use super::store::CellStore;
use super::words::Words;

/// The number of the empty list. A number and no Option, since a tail is a word of a cell.
const EMPTY_LIST: u32 = 0;

/// Why an element was not put before a list.
#[derive(Clone, Copy, PartialEq, Eq, Debug)]
pub enum PrependFault {
    /// No list has this number.
    NoList(u32),
    /// The store found no room.
    Store(StoreFault),
}

// Written out, since a derived `From` says nothing of what it gives, and `prepend` promises that the fault comes whole.
impl From<StoreFault> for PrependFault {
    ghost from_gives = { λ fault r. r ≡ Store fault };

    fn from(fault: StoreFault) -> Self {
        PrependFault::Store(fault)
    }
}

/// Puts an element before a list and answers the longer list.
pub fn prepend<S: CellStore>(
    store: &mut Quota<S>,
    element: u32,
    list: u32,
) -> Result<u32, PrependFault>
    requires { QuotaOk S.Meaning.ok S.Meaning.cells store.old }
    ensures ok { QuotaOk S.Meaning.ok S.Meaning.cells store.new }
    ensures prepended { Prepends S.Meaning.cells S.Meaning.capacity S.Meaning.code store.old element list result store.new }
{
    if list != EMPTY_LIST && store.read(list).is_none() {
        return Err(PrependFault::NoList(list));
    }
    let node = store.take(Words {
        element,
        tail: list,
        third: 0,
    })?;
    Ok(node)
}
