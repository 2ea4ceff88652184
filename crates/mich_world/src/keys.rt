// The keys of accounts and contracts, for printing.
ghost use Rattle.std.specs.Prelude.{◌≡◌, IfOk};
ghost use Rattle.std.specs.Map.{keys_of};

use crate::maps::{Accounts, Contracts};
use crate::world::World;
use mich_base::{Memory, Rows};
use mich_forms::KeyHash;
use std::alloc::Global;

fn account_keys(alloc: Global, accounts: &Accounts) -> Result<Rows<KeyHash>, Memory>
    ensures { IfOk result (λ keys. keys ≡ keys_of accounts.now.entries) }
{
    let mut keys = Rows::new(alloc);
    'accounts: for (who, balance) in accounts {
        let _balance = balance;
        keys.push(*who)?;
    }
    Ok(keys)
}

fn contract_keys(alloc: Global, contracts: &Contracts) -> Result<Rows<[u8; 20]>, Memory>
    ensures { IfOk result (λ keys. keys ≡ keys_of contracts.now.entries) }
{
    let mut keys = Rows::new(alloc);
    'contracts: for (hash, contract) in contracts {
        let _contract = contract;
        keys.push(*hash)?;
    }
    Ok(keys)
}

impl World {
    /// The key hashes of all accounts, in the order of their bytes. Memory where there is no room for them.
    pub fn account_keys(&self, alloc: Global) -> Result<Rows<KeyHash>, Memory>
        ensures { IfOk result (λ keys. keys ≡ keys_of self.now.funds.present.accounts) }
    {
        account_keys(alloc, self.funds.accounts())
    }

    /// The 20 bytes of all contracts, in the order of their bytes. Memory where there is no room for them.
    pub fn contract_keys(&self, alloc: Global) -> Result<Rows<[u8; 20]>, Memory>
        ensures { IfOk result (λ keys. keys ≡ keys_of self.now.funds.present.contracts) }
    {
        contract_keys(alloc, self.funds.contracts())
    }
}
