// The scripts of the three runs of a workload.
ghost use Rattle.std.specs.Prelude.{◌≡◌, ◌++◌, ◌<◌, ◌≤◌, ◌*◌, ◌+◌, length, All, IfOk, OnOk};
ghost use Rattle.workload_scripts.specs.Draws.{behind_transfers};
ghost use Rattle.workload_scripts.specs.Scripts.{stores_to, transfers_to, first_script as first_text, transfer_scripts as transfer_texts, last_script as last_text};

use crate::draws::draw_transfer;
use crate::texts::{store_text, transfer_text};
use rdb_types::{Bytes, NoMemory};
use std::alloc::Global;

/// How many transfers a session makes.
const TRANSFERS: u32 = 25;

fn stores_text(accounts: u32, out: &mut Bytes) -> Result<(), NoMemory>
    ensures { OnOk result (out.new ≡ out.old ++ stores_to accounts) }
{
    for account in 0..accounts {
        store_text(account + 1, out)?;
    }
    Ok(())
}

/// The script that defines the relation of the accounts and its index, and stores accounts from 1 on, in one transaction.
pub fn first_script(alloc: Global, accounts: u32) -> Result<Bytes, NoMemory>
    ensures text { IfOk result (λ text. text ≡ first_text accounts) }
    ensures short { IfOk result (λ text. length text ≤ 400 + 80 * accounts) }
{
    let mut text = Bytes::new(alloc);
    text.extend(
        b"START_TRANSACTION READ_WRITE\nDEFINE RELATION ACCOUNTS.\nID DATATYPE IS SIGNED LONGWORD.\nBAL DATATYPE IS SIGNED QUADWORD.\nEND ACCOUNTS RELATION.\nDEFINE INDEX AID FOR ACCOUNTS DUPLICATES ARE NOT ALLOWED.\nID.\nEND AID INDEX.\n",
    )?;
    stores_text(accounts, &mut text)?;
    text.extend(b"COMMIT\n")?;
    Ok(text)
}

// Adds a session's transfers, and answers the number that was drawn last.
fn transfers_text(accounts: u32, number: u32, out: &mut Bytes) -> Result<u32, NoMemory>
    requires some { 0 < accounts }
    ensures text { OnOk result (out.new ≡ out.old ++ transfers_to accounts number TRANSFERS) }
    ensures number { IfOk result (λ last. last ≡ behind_transfers number TRANSFERS) }
{
    let mut last = number;
    for _made in 0..TRANSFERS {
        let drawn = draw_transfer(accounts, last);
        transfer_text(drawn.transfer, out)?;
        last = drawn.number;
    }
    Ok(last)
}

/// The scripts of four sessions, each of 25 transfers between these accounts.
pub fn transfer_scripts(alloc: Global, accounts: u32) -> Result<Vec<Bytes>, NoMemory>
    requires some { 0 < accounts }
    ensures texts { IfOk result (λ texts. texts.items ≡ transfer_texts accounts) }
    ensures four { IfOk result (λ texts. length texts.items ≡ 4) }
    ensures short { IfOk result (λ texts. All (λ text. length text ≤ 10000) texts.items) }
{
    let mut texts = Vec::new(alloc);
    let mut number = accounts;
    for _session in 0..4u32 {
        let mut text = Bytes::new(alloc);
        number = transfers_text(accounts, number, &mut text)?;
        texts.push(text)?;
    }
    Ok(texts)
}

/// The script that counts the accounts and sums up their balances.
pub fn last_script(alloc: Global) -> Result<Bytes, NoMemory>
    ensures { IfOk result (λ text. text ≡ last_text) }
{
    Bytes::from_slice(
        alloc,
        b"START_TRANSACTION READ_ONLY\nPRINT COUNT OF A IN ACCOUNTS, TOTAL A.BAL OF A IN ACCOUNTS\nCOMMIT\n",
    )
}
