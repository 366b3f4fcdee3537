// The quota: a limit over any store, which holds the same cells.
ghost use Rattle.std.specs.Prelude.{◌≡◌};
ghost use Rattle.cells.specs.Cells.{count};
ghost use Rattle.cells.specs.Calls.{Takes, Gives, Clears};
ghost use Rattle.cells.specs.Quota.{limit_for, quota_cells, quota_capacity, quota_code, QuotaOk, QuotaTakes, Limited};
ghost use Rattle.std.proofs.Math.Nat.{le-min, le_trans, min-le_right};

use super::fault::StoreFault;
use super::store::{CellStore, Meaning};
use super::words::Words;

/// The layer code of a quota.
pub const QUOTA_CODE: u8 = 3;

/// A store with a limit of its own over the store below it. That no more is held than the limit stands in `ok`, and not here: a
/// bound on the type would keep a quota over a quota out of structs that are generic over their store.
#[derive(Drop)]
pub struct Quota<S> {
    below: S,
    limit: u32,
}

impl<S: CellStore> Quota<S> {
    /// A quota over a store. Limit 0 asks for the capacity below; a limit under the number held counts as that number.
    pub fn new(below: S, limit: u32) -> Quota<S>
        requires { S.Meaning.ok below }
        ensures ok { QuotaOk S.Meaning.ok S.Meaning.cells result }
        ensures below { result.below ≡ below }
        ensures limit { result.limit ≡ limit_for limit (S.Meaning.capacity below) (S.Meaning.cells below) }
    {
        let held = below.held();
        let limit = if limit == 0 {
            held + below.free()
        } else {
            limit.max(held)
        };
        Quota { below, limit }
    }
}

impl<S: CellStore> Meaning for Quota<S> {
    ghost cells = { quota_cells S.Meaning.cells };

    ghost capacity = { quota_capacity S.Meaning.capacity };

    ghost code = { quota_code S.Meaning.cells S.Meaning.code };

    ghost ok = { QuotaOk S.Meaning.ok S.Meaning.cells };

    ghost small = { λ quota ok. le_trans (min-le_right quota.limit (S.Meaning.capacity quota.below)) (S.Meaning.small quota.below ok.below_ok) };

    ghost numbered = { λ quota ok. S.Meaning.numbered quota.below ok.below_ok };

    ghost within = { λ quota ok. le-min ok.within_limit (S.Meaning.within quota.below ok.below_ok) };
}

impl<S: CellStore> CellStore for Quota<S> {
    fn free(&self) -> u32 {
        let under_limit = self.limit - self.below.held();
        under_limit.min(self.below.free())
    }

    fn held(&self) -> u32 {
        self.below.held()
    }

    fn read(&self, number: u32) -> Option<Words> {
        self.below.read(number)
    }

    fn take(&mut self, words: Words) -> Result<u32, StoreFault>
        requires { QuotaOk S.Meaning.ok S.Meaning.cells self.old }
        ensures ok { QuotaOk S.Meaning.ok S.Meaning.cells self.new }
        ensures took { QuotaTakes S.Meaning.cells S.Meaning.capacity S.Meaning.code self.old words result self.new }
        ensures limited { Limited S.Meaning.cells S.Meaning.capacity S.Meaning.code self.old words result self.new }
    {
        if self.limit <= self.below.held() {
            return Err(StoreFault { code: QUOTA_CODE });
        }
        self.below.take(words)
    }

    fn give(&mut self, number: u32) -> Option<()>
        requires { QuotaOk S.Meaning.ok S.Meaning.cells self.old }
        ensures ok { QuotaOk S.Meaning.ok S.Meaning.cells self.new }
        ensures gave { Gives (quota_cells S.Meaning.cells) (quota_capacity S.Meaning.capacity) self.old number result self.new }
        ensures limit { self.new.limit ≡ self.old.limit }
    {
        self.below.give(number)
    }

    fn clear(&mut self)
        requires { QuotaOk S.Meaning.ok S.Meaning.cells self.old }
        ensures ok { QuotaOk S.Meaning.ok S.Meaning.cells self.new }
        ensures cleared { Clears (quota_cells S.Meaning.cells) (quota_capacity S.Meaning.capacity) self.old self.new }
        ensures limit { self.new.limit ≡ self.old.limit }
    {
        self.below.clear();
    }
}
